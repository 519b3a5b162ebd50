// The text of a journal line: its writer.
#![tactic(auto)]

ghost use Rattle.std.specs.Prelude.{◌≡◌, ◌+◌, ◌≤◌, length};
ghost use Rattle.area.specs.Laid.{laid, in_front};
ghost use Rattle.fields.specs.Written.{written_answer, written_length};
ghost use Rattle.journal.specs.JournalParts.{call_head, call_tail};
ghost use Rattle.journal_text.specs.JournalText.{line_answer, line_written};

use answer::Refusal;
use journal::Call;

// Bytes of the longest journal line.
pub const LONGEST_JOURNAL_LINE: usize = 89;

// Lays a line's first part over the area; answers the place behind it.
#[tactic(auto, unfolding(journal::specs::JournalParts::call_head))]
fn put_head(out: &mut [u8], c: Call) -> usize
    requires { length (call_head c) ≤ length out.old }
    ensures value { result ≡ length (call_head c) }
    ensures out_after { out.new ≡ laid out.old 0 (call_head c) }
{
    let at = fields::put_number(out, 0, b"now=", c.now.0);
    let at = fields::put_number(out, at, b" line=", c.line);
    fields::put_letter(out, at, b" kind=", c.kind)
}

// Lays a line's last part over the area from `at` on; answers the place behind it.
#[tactic(auto, unfolding(journal::specs::JournalParts::call_tail))]
fn put_tail(out: &mut [u8], at: usize, c: Call) -> usize
    requires { at + length (call_tail c) ≤ length out.old }
    ensures value { result ≡ at + length (call_tail c) }
    ensures out_after { out.new ≡ laid out.old at (call_tail c) }
{
    let at = fields::put_number(out, at, b" id=", c.id);
    let at = fields::put_number(out, at, b" time=", c.time.0);
    let at = fields::put_number(out, at, b" meter=", c.meter);
    fields::put_last(out, at, b" value=", c.value)
}

// Writes a call's line into the area and answers its length. A kind that has no letter is refused before an area that the longest line
// would not fit is; nothing is written then.
pub fn write_call(c: Call, out: &mut [u8]) -> Result<usize, Refusal>
    ensures result_value { written_answer result ≡ line_answer c out.old }
    ensures result_value_2 { written_length result ≡ length (line_written c out.old) }
    ensures out_after { out.new ≡ in_front (line_written c out.old) out.old }
{
    if !journal::is_letter(c.kind) {
        return Err(Refusal::Malformed);
    }
    if out.len() < LONGEST_JOURNAL_LINE {
        return Err(Refusal::ShortArea);
    }
    let at = put_head(out, c);
    Ok(put_tail(out, at, c))
}
