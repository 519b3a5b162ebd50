// The journal line: one call, and the reader of its text.
#![tactic(auto)]

ghost use Rattle.std.specs.Prelude.{◌≡◌, ◌≤◌, length};
ghost use Rattle.decimal.specs.Spelled.{Ended};
ghost use Rattle.journal.specs.Kinds.{is_letter};
ghost use Rattle.journal.specs.JournalLine.{has_form, ExactCall};
ghost use Rattle.journal.specs.ReadLine.{letter_at, letter_field, call_at, call_of};
ghost use Rattle.journal.specs.FieldParts.{parts};

use clock::{ArrivalTick, ReadingTime};

// The kinds of calls, by their letter's byte.
pub const STABLE: u8 = b'S';

pub const TENTATIVE: u8 = b'T';

pub const BOUNDARY: u8 = b'B';

pub const UNDO: u8 = b'U';

pub const DONE: u8 = b'R';

pub const STEP: u8 = b'P';

// The widest unsigned numbers of 32 and of 8 bits.
const WORD: u32 = u32::MAX;

const BYTE: u32 = u8::MAX as u32;

// The fields of one journal line; the kind is its letter's byte.
#[derive(Clone, Copy, Debug, PartialEq, Eq)]
pub struct Call {
    pub now: ArrivalTick,
    pub id: u32,
    pub time: ReadingTime,
    pub value: i32,
    pub line: u8,
    // A byte and no enum: `journal_text::write_call` answers 6 for a byte that is no letter.
    pub kind: u8,
    pub meter: u8,
}

// Whether a byte is the letter of a kind.
#[tactic(auto, unfolding(crate::specs::Kinds::is_letter))]
pub fn is_letter(kind: u8) -> bool
    ensures { result ≡ is_letter kind }
{
    matches!(kind, STABLE | TENTATIVE | BOUNDARY | UNDO | DONE | STEP)
}

// The letter that the text has at a place, with the place behind it.
#[tactic(auto, unfolding(crate::specs::ReadLine::letter_at))]
fn letter_at(s: &[u8], at: usize) -> Option<(u8, usize)>
    ensures { result ≡ letter_at s.now at }
{
    if at < s.len() && is_letter(s[at]) {
        Some((s[at], at + 1))
    } else {
        None
    }
}

// The letter of the field that the text has from `at` on, with the place behind it.
#[tactic(auto, unfolding(crate::specs::ReadLine::letter_field))]
fn letter_field(s: &[u8], at: usize, key: &[u8]) -> Option<(u8, usize)>
    requires { at ≤ length s.now }
    ensures { result ≡ letter_field key.now s.now at }
{
    if fields::has_key(s, at, key) {
        letter_at(s, at + key.len())
    } else {
        None
    }
}

// The parts of a field: whether it was read, its value and the place behind it; 0 and the first place of the text where it was not.
fn parts<V: Copy>(field: Option<(V, usize)>, zero: V) -> (bool, V, usize)
    ensures { result ≡ parts field zero }
{
    match field {
        Some((value, end)) => (true, value, end),
        None => (false, zero, 0),
    }
}

// The journal line that the text has from `at` on, with the place behind it.
// All fields are read and then tested together: a way out behind each, as by `?`, makes the rest look rare to the compiler (measured).
fn call_at(s: &[u8], at: usize) -> Option<(Call, usize)>
    requires { (at ≤ length s.now) × Ended s.now }
    ensures { result ≡ call_at s.now at }
{
    let (has_now, now, at) = parts(fields::number_field(s, at, b"now=", WORD), 0);
    let (has_line, line, at) = parts(fields::number_field(s, at, b" line=", BYTE), 0);
    let (has_kind, kind, at) = parts(letter_field(s, at, b" kind="), 0);
    let (has_id, id, at) = parts(fields::number_field(s, at, b" id=", WORD), 0);
    let (has_time, time, at) = parts(fields::number_field(s, at, b" time=", WORD), 0);
    let (has_meter, meter, at) = parts(fields::number_field(s, at, b" meter=", BYTE), 0);
    let (has_value, value, at) = parts(fields::integer_field(s, at, b" value="), 0);
    let has_all = has_now & has_line & has_kind & has_id & has_time & has_meter & has_value;
    if has_all & fields::ends_line(s, at) {
        let call = Call {
            now: ArrivalTick(now),
            id,
            time: ReadingTime(time),
            value,
            line: line as u8,
            kind,
            meter: meter as u8,
        };
        Some((call, at + 1))
    } else {
        None
    }
}

// What a call's text is read as: the call whose line it is, or none.
#[tactic(auto, unfolding(crate::specs::ReadLine::call_of, crate::specs::ReadLine::whole))]
pub fn read_call(text: &[u8]) -> Option<Call>
    ensures value { result ≡ call_of text.now }
    ensures exact_call { ExactCall text.now result }
{
    if !fields::is_line(text) {
        return None;
    }
    let (call, end) = call_at(text, 0)?;
    if end == text.len() { Some(call) } else { None }
}

// Whether a text has the form of a journal line.
#[tactic(auto, unfolding(crate::specs::JournalLine::has_form, crate::specs::JournalLine::call_answer))]
pub fn has_form(text: &[u8]) -> bool
    ensures { result ≡ has_form text.now }
{
    read_call(text).is_some()
}
