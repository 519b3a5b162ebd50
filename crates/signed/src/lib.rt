// Signed numbers: magnitude, mean, two's complement.
#![tactic(auto)]

ghost use Rattle.std.specs.Prelude.{◌≡◌, ℕ, ℤ, ◌*◌, ◌<◌, ◌≤◌, ◌^◌, nat_abs};
ghost use Rattle.signed.specs.Nearest.{nearest};
ghost use Rattle.signed.specs.Mean.{mean};
ghost use Rattle.signed.specs.Range.{InRange};
ghost use Rattle.signed.specs.Twos.{twos, signed_of};

// The magnitude of a number, also of -2^63.
pub fn magnitude(x: i64) -> u64
    ensures { result ≡ nat_abs x }
{
    x.unsigned_abs()
}

// a divided by n to the nearest whole, a half to the even one; 0 where n is 0.
#[tactic(auto, unfolding(crate::specs::Nearest::nearest))]
fn rounded(a: u64, n: u64) -> u64
    requires { (n < 2 ^ 32) × (a ≤ 2 ^ 31 * n) }
    ensures { result ≡ nearest a n }
{
    if n == 0 {
        return 0;
    }
    let q = a / n;
    let twice = 2 * (a % n);
    if twice < n {
        return q;
    }
    if n < twice {
        return q + 1;
    }
    q + q % 2
}

// The mean of count values with this sum: the nearest whole, a half to the even one; 0 of no value.
#[tactic(auto, using(crate::proofs::Mean::within_range), unfolding(crate::specs::Mean::mean))]
pub fn mean_of(sum: i64, count: u32) -> i32
    requires { InRange sum count }
    ensures { result ≡ mean sum count }
{
    let q = rounded(magnitude(sum), count as u64) as i64;
    if sum < 0 { -q as i32 } else { q as i32 }
}

// A signed number that a word of as many bits stands for, in two's complement.
pub trait Signed: Copy {
    type Word: Copy;

    // How many bits both have.
    ghost bits: { ℕ };

    // The number, and the word's number.
    ghost number: { Self → ℤ };

    ghost word: { Self.Word → ℕ };

    // The word that stands for the number.
    fn to_word(self) -> Self::Word
        ensures { word result ≡ twos bits (number self) };

    // The number that a word stands for.
    fn from_word(w: Self::Word) -> Self
        ensures { number result ≡ signed_of bits (word w) };
}

impl Signed for i32 {
    type Word = u32;

    ghost bits = { 32 };

    ghost number = { λ x. x };

    ghost word = { λ x. x };

    #[tactic(auto, using(crate::proofs::Twos::cast_twos))]
    fn to_word(self) -> u32 {
        i32::cast_unsigned(self)
    }

    #[tactic(auto, using(crate::proofs::Twos::cast_signed_of))]
    fn from_word(w: u32) -> i32 {
        u32::cast_signed(w)
    }
}

impl Signed for i64 {
    type Word = u64;

    ghost bits = { 64 };

    ghost number = { λ x. x };

    ghost word = { λ x. x };

    #[tactic(auto, using(crate::proofs::Twos::cast_twos))]
    fn to_word(self) -> u64 {
        i64::cast_unsigned(self)
    }

    #[tactic(auto, using(crate::proofs::Twos::cast_signed_of))]
    fn from_word(w: u64) -> i64 {
        u64::cast_signed(w)
    }
}
