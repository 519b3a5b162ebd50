// Words as little-endian bytes: laid over a lent area, and read from a place on.
#![tactic(auto)]

ghost use Rattle.std.specs.Prelude.{◌≡◌, ℕ, ◌+◌, ◌≤◌, length, take, drop};
ghost use Rattle.area.specs.Laid.{laid};
ghost use Rattle.endian.specs.LittleEndian.{little_endian, number_of};

// A word of so many bytes.
pub trait Word: Copy {
    // How many bytes the word has.
    const BYTES: usize;

    ghost BYTES: { ℕ };

    // The number that it is.
    ghost number: { Self → ℕ };

    // Lays the word's bytes over an area of their length.
    fn lay(self, out: &mut [u8])
        requires { length out.old ≡ BYTES }
        ensures { out.new ≡ little_endian BYTES (number self) };

    // The word of bytes of its length.
    fn read(s: &[u8]) -> Self
        requires { length s.now ≡ BYTES }
        ensures { number result ≡ number_of s.now };
}

impl Word for u32 {
    const BYTES: usize = 4;

    ghost BYTES = { 4 };

    ghost number = { λ x. x };

    fn lay(self, out: &mut [u8]) {
        out.copy_from_slice(&u32::to_le_bytes(self));
    }

    fn read(s: &[u8]) -> u32 {
        u32::from_le_bytes([s[0], s[1], s[2], s[3]])
    }
}

impl Word for u64 {
    const BYTES: usize = 8;

    ghost BYTES = { 8 };

    ghost number = { λ x. x };

    fn lay(self, out: &mut [u8]) {
        out.copy_from_slice(&u64::to_le_bytes(self));
    }

    fn read(s: &[u8]) -> u64 {
        u64::from_le_bytes([s[0], s[1], s[2], s[3], s[4], s[5], s[6], s[7]])
    }
}

// Lays a word over the area from `at` on.
#[tactic(auto, using(area::proofs::Laid::put_mid_laid, crate::proofs::LittleEndian::length_little_endian))]
pub fn put<W: Word>(out: &mut [u8], at: usize, x: W)
    requires { at + W.BYTES ≤ length out.old }
    ensures { out.new ≡ laid out.old at (little_endian W.BYTES (W.number x)) }
{
    x.lay(&mut out[at..at + W::BYTES]);
}

// The word of the bytes that stand from `at` on.
pub fn get<W: Word>(s: &[u8], at: usize) -> W
    requires { at + W.BYTES ≤ length s.now }
    ensures { W.number result ≡ number_of (take W.BYTES (drop at s.now)) }
{
    W::read(&s[at..at + W::BYTES])
}
