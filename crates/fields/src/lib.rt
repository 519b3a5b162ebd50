// Lines of text: the next line of a text, and keyed fields, read and written.
#![tactic(auto)]

ghost use Rattle.std.specs.Prelude.{◌≡◌, true, [], ◌∷◌, ◌++◌, ◌+◌, ◌-◌, ◌<◌, ◌≤◌, ℤ, pos, length, take, drop};
ghost use Rattle.area.specs.Laid.{laid};
ghost use Rattle.decimal.specs.Decimal.{decimal};
ghost use Rattle.decimal.specs.Spelled.{Ended};
ghost use Rattle.fields.specs.Line.{holds_line, next_line};
ghost use Rattle.fields.specs.Field.{starts_with, ends_line, number_field, integer_field};

// A text's first line with its 0A, as a part of that text; a text without a 0A is one line.
pub fn next_line(s: &[u8]) -> &[u8]
    ensures result_value { result.now ≡ next_line s.now }
    ensures ref_ptr_value { result.ref_ptr ≡ s.entry.ref_ptr }
{
    match memchr::memchr(b'\n', s) {
        Some(at) => &s[..at + 1],
        None => s,
    }
}

// Whether a text begins with the bytes of a key from `at` on: the first four as one word, the others one by one, so that where the key is
// known each is compared with a constant. A shorter key is compared as a slice.
pub fn has_key(s: &[u8], at: usize, key: &[u8]) -> bool
    requires { at ≤ length s.now }
    ensures { result ≡ starts_with key.now (drop at s.now) }
{
    if s.len() - at < key.len() {
        return false;
    }
    if key.len() < 4 {
        return key == &s[at..at + key.len()];
    }
    if endian::get::<u32>(s, at) != endian::get::<u32>(key, 0) {
        return false;
    }
    for i in 4..key.len() {
        if s[at + i] != key[i] {
            return false;
        }
    }
    true
}

// Whether 0A stands at a place, which ends the line.
#[tactic(auto, unfolding(crate::specs::Field::ends_line))]
pub fn ends_line(s: &[u8], at: usize) -> bool
    ensures { result ≡ ends_line s.now at }
{
    at < s.len() && s[at] == b'\n'
}

// Whether a text ends with 0A.
#[tactic(auto, unfolding(crate::specs::Field::ends_line))]
pub fn is_line(s: &[u8]) -> bool
    ensures { result ≡ ends_line s.now (length s.now - 1) }
{
    !s.is_empty() && s[s.len() - 1] == b'\n'
}

// Three readers of a field and not one: each has its reader of decimal, which ask for different things.

// The unsigned number, of at most `most`, of the field that the text has from `at` on, and the place behind it.
#[tactic(auto, unfolding(crate::specs::Field::number_field))]
pub fn number_field(s: &[u8], at: usize, key: &[u8], most: u32) -> Option<(u32, usize)>
    requires { (at ≤ length s.now) × Ended s.now }
    ensures { result ≡ number_field key.now most s.now at }
{
    if has_key(s, at, key) {
        decimal::read_number(s, at + key.len(), most)
    } else {
        None
    }
}

// The unsigned number of 64 bits, of at most `most`, of the field that the text has from `at` on, and the place behind it.
#[tactic(auto, unfolding(crate::specs::Field::number_field))]
pub fn wide_field(s: &[u8], at: usize, key: &[u8], most: u64) -> Option<(u64, usize)>
    requires { at ≤ length s.now }
    ensures { result ≡ number_field key.now most s.now at }
{
    if has_key(s, at, key) {
        decimal::read_wide(s, at + key.len(), most)
    } else {
        None
    }
}

// The signed number of the field that the text has from `at` on, and the place behind it.
#[tactic(auto, unfolding(crate::specs::Field::integer_field))]
pub fn integer_field(s: &[u8], at: usize, key: &[u8]) -> Option<(i32, usize)>
    requires { (at ≤ length s.now) × Ended s.now }
    ensures { result ≡ integer_field key.now s.now at }
{
    if has_key(s, at, key) {
        decimal::read_integer(s, at + key.len())
    } else {
        None
    }
}

// A whole number of any of the widths that lines hold.
pub trait Whole: Copy {
    ghost whole: { Self → ℤ };

    fn widen(self) -> i64
        ensures { result ≡ whole self };
}

impl Whole for u8 {
    ghost whole = { pos };

    fn widen(self) -> i64 {
        i64::from(self)
    }
}

impl Whole for u32 {
    ghost whole = { pos };

    fn widen(self) -> i64 {
        i64::from(self)
    }
}

impl Whole for i32 {
    ghost whole = { λ z. z };

    fn widen(self) -> i64 {
        i64::from(self)
    }
}

impl Whole for i64 {
    ghost whole = { λ z. z };

    fn widen(self) -> i64 {
        self
    }
}

// Each writer below lays a key and a value over the area from `at` on, and answers the place behind them.

// A letter.
pub fn put_letter(out: &mut [u8], at: usize, key: &[u8], letter: u8) -> usize
    requires { at + length (key.now ++ letter ∷ []) ≤ length out.old }
    ensures value { result ≡ at + length (key.now ++ letter ∷ []) }
    ensures out_after { out.new ≡ laid out.old at (key.now ++ letter ∷ []) }
{
    let place = area::put_bytes(out, at, key);
    out[place] = letter;
    place + 1
}

// A whole number.
pub fn put_number<V: Whole>(out: &mut [u8], at: usize, key: &[u8], value: V) -> usize
    requires { at + length (key.now ++ decimal (V.whole value)) ≤ length out.old }
    ensures value { result ≡ at + length (key.now ++ decimal (V.whole value)) }
    ensures out_after { out.new ≡ laid out.old at (key.now ++ decimal (V.whole value)) }
{
    let place = area::put_bytes(out, at, key);
    decimal::put_decimal(out, place, value.widen())
}

// The last field of a line, a signed number of 32 bits, with the 0A behind it.
pub fn put_last(out: &mut [u8], at: usize, key: &[u8], value: i32) -> usize
    requires { at + length (key.now ++ (decimal value ++ 10 ∷ [])) ≤ length out.old }
    ensures value { result ≡ at + length (key.now ++ (decimal value ++ 10 ∷ [])) }
    ensures out_after { out.new ≡ laid out.old at (key.now ++ (decimal value ++ 10 ∷ [])) }
{
    let end = put_number(out, at, key, value);
    out[end] = b'\n';
    end + 1
}
