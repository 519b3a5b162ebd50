// Decimal numbers in text: read from a place on, and written into a lent area.
#![tactic(auto)]

ghost use Rattle.std.specs.Prelude.{◌≡◌, ◌+◌, ◌-◌, ◌*◌, ◌<◌, ◌≤◌, ◌^◌, SomeIff, cond, eqb, pos, neg_ℤ, IsTrue, length, get_or};
ghost use Rattle.area.specs.Laid.{laid};
ghost use Rattle.decimal.specs.Decimal.{digits, decimal};
ghost use Rattle.decimal.specs.Spelled.{Ended, is_digit, number_at, integer_at};

// Whether a byte is an ASCII digit.
#[tactic(auto, unfolding(crate::specs::Spelled::is_digit))]
fn is_digit(b: u8) -> bool
    ensures { result ≡ is_digit b }
{
    b.is_ascii_digit()
}

// Whether a digit stands at a place.
fn digit_at(s: &[u8], at: usize) -> bool
    ensures value { result ≡ is_digit (get_or s.now at 0) }
    ensures within { IsTrue result → at < length s.now }
{
    at < s.len() && is_digit(s[at])
}

// A number with a digit behind it, where 64 bits hold it.
fn with_digit(value: u64, digit: u8) -> Option<u64>
    ensures { SomeIff result (value * 10 + digit < 2 ^ 64) (value * 10 + digit) }
{
    value.checked_mul(10)?.checked_add(u64::from(digit))
}

// The unsigned number of 64 bits, of at most `most`, that the text spells from `at` on, and the place behind it. Any text is read, so the
// loop looks for the text's end and for the end of 64 bits at every digit.
pub fn read_wide(s: &[u8], at: usize, most: u64) -> Option<(u64, usize)>
    ensures { result ≡ number_at most s.now at }
{
    let mut value: u64 = 0;
    let mut end = at;
    while digit_at(s, end) {
        value = with_digit(value, s[end] - b'0')?;
        end += 1;
    }
    let count = end - at;
    if count == 0 || most < value {
        return None;
    }
    if s[at] == b'0' && 1 < count {
        return None;
    }
    Some((value, end))
}

// The unsigned number, of at most `most`, that the text spells from `at` on, and the place behind it. The text ends with no digit, so that
// the loop needs no other stop. `read_wide` may be given any text, so the two loops are not one.
pub fn read_number(s: &[u8], at: usize, most: u32) -> Option<(u32, usize)>
    requires { Ended s.now }
    ensures { result ≡ number_at most s.now at }
{
    if !digit_at(s, at) {
        return None;
    }
    let next = at + 1;
    if s[at] == b'0' {
        return if is_digit(s[next]) {
            None
        } else {
            Some((0, next))
        };
    }
    let mut value = u64::from(s[at] - b'0');
    if u64::from(most) < value {
        return None;
    }
    let mut i = next;
    while is_digit(s[i]) {
        value = value * 10 + u64::from(s[i] - b'0');
        if u64::from(most) < value {
            return None;
        }
        i += 1;
    }
    Some((value as u32, i))
}

// Whether a minus stands at a place.
fn minus_at(s: &[u8], at: usize) -> bool
    ensures { result ≡ eqb (get_or s.now at 0) 45 }
{
    at < s.len() && s[at] == b'-'
}

// The number with this sign and magnitude.
fn with_sign(minus: bool, m: u32) -> i32
    requires { m ≤ cond minus (2 ^ 31) (2 ^ 31 - 1) }
    ensures { result ≡ cond minus (neg_ℤ (pos m)) (pos m) }
{
    let value = i64::from(m);
    (if minus { -value } else { value }) as i32
}

// The signed number that the text spells from `at` on, and the place behind it. One reading for both signs; a zero has no minus.
pub fn read_integer(s: &[u8], at: usize) -> Option<(i32, usize)>
    requires { Ended s.now }
    ensures { result ≡ integer_at s.now at }
{
    let minus = minus_at(s, at);
    let (m, end) = read_number(s, at + usize::from(minus), 2147483647 + u32::from(minus))?;
    if minus && m == 0 {
        return None;
    }
    Some((with_sign(minus, m), end))
}

// How many digits a number has; 0 has one.
fn count_digits(n: u64) -> usize
    ensures { result ≡ length (digits n) }
{
    if n == 0 { 1 } else { n.ilog10() as usize + 1 }
}

// Lays a number's digits over the area from `at` to `end`, the last two first, then the two before them.
// By hand and no `itoa`, which would fill a buffer of its own for the area to be copied from.
fn fill_digits(out: &mut [u8], at: usize, end: usize, n: u64)
    requires end_value { end ≡ at + length (digits n) }
    requires end_in_bounds { end ≤ length out.old }
    ensures { out.new ≡ laid out.old at (digits n) }
{
    let mut i = end;
    let mut rest = n;
    while 99 < rest {
        let pair = rest % 100;
        i -= 2;
        out[i] = b'0' + (pair / 10) as u8;
        out[i + 1] = b'0' + (pair % 10) as u8;
        rest = rest / 100;
    }
    if 9 < rest {
        out[i - 1] = b'0' + (rest % 10) as u8;
        rest = rest / 10;
    }
    out[at] = b'0' + rest as u8;
}

// Lays a number's digits over the area from `at` on; answers the place behind them.
fn put_digits(out: &mut [u8], at: usize, n: u64) -> usize
    requires { at + length (digits n) ≤ length out.old }
    ensures value { result ≡ at + length (digits n) }
    ensures out_after { out.new ≡ laid out.old at (digits n) }
{
    let end = at + count_digits(n);
    fill_digits(out, at, end, n);
    end
}

// Lays a whole number's text over the area from `at` on, also that of -2^63; answers the place behind it.
pub fn put_decimal(out: &mut [u8], at: usize, z: i64) -> usize
    requires { at + length (decimal z) ≤ length out.old }
    ensures value { result ≡ at + length (decimal z) }
    ensures out_after { out.new ≡ laid out.old at (decimal z) }
{
    let m = z.unsigned_abs();
    let mut place = at;
    if z < 0 {
        out[at] = b'-';
        place = at + 1;
    }
    put_digits(out, place, m)
}
