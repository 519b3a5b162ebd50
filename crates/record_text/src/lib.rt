// The text of a record, as `merge` prints it.
#![tactic(auto)]

ghost use Rattle.std.specs.Prelude.{◌≡◌, ◌+◌, ◌≤◌, length};
ghost use Rattle.area.specs.Laid.{laid, in_front};
ghost use Rattle.fields.specs.Written.{written_answer, written_length};
ghost use Rattle.record.specs.Decoded.{decoded};
ghost use Rattle.record_text.specs.RecordText.{record_text, text_of, text_answer, text_written};
ghost use Rattle.record_text.specs.Parts.{text_head, text_tail};

use answer::Refusal;
use record::Record;

// Bytes of the longest text of a record.
pub const LONGEST_RECORD_TEXT: usize = 123;

// The text up to the meter, from the area's first place on; answers the place behind it.
#[tactic(auto, unfolding(crate::specs::Parts::text_head), using(area::proofs::Laid::laid_four))]
fn put_head(out: &mut [u8], r: Record) -> usize
    requires { length (text_head r) ≤ length out.old }
    ensures value { result ≡ length (text_head r) }
    ensures out_after { out.new ≡ laid out.old 0 (text_head r) }
{
    let id = fields::put_letter(out, 0, b"kind=", r.kind);
    let time = fields::put_number(out, id, b" id=", r.id);
    let meter = fields::put_number(out, time, b" time=", r.time.0);
    fields::put_number(out, meter, b" meter=", r.meter)
}

// The text from the count on, from `at` on; answers the place behind it.
#[tactic(auto, unfolding(crate::specs::Parts::text_tail), using(crate::proofs::RecordText::tail_laid))]
fn put_tail(out: &mut [u8], at: usize, r: Record) -> usize
    requires { at + length (text_tail r) ≤ length out.old }
    ensures value { result ≡ at + length (text_tail r) }
    ensures out_after { out.new ≡ laid out.old at (text_tail r) }
{
    let sum = fields::put_number(out, at, b" count=", r.count);
    let mean = fields::put_number(out, sum, b" sum=", r.sum);
    let last = fields::put_number(out, mean, b" mean=", r.mean);
    fields::put_last(out, last, b" last=", r.last)
}

// The whole text of a record, from the area's first place on; answers its length.
#[tactic(auto, using(crate::proofs::RecordText::text_laid))]
fn put_text(out: &mut [u8], r: Record) -> usize
    requires { length (record_text r) ≤ length out.old }
    ensures value { result ≡ length (record_text r) }
    ensures out_after { out.new ≡ laid out.old 0 (record_text r) }
{
    let at = put_head(out, r);
    put_tail(out, at, r)
}

// Lays the text of the record that these bytes are over the area from `at` on, and none of bytes that are no record; answers the place
// behind it.
#[tactic(auto, unfolding(crate::specs::RecordText::text_of), using(crate::proofs::Lent::lent))]
pub fn put_record(out: &mut [u8], at: usize, bytes: &[u8]) -> usize
    requires { at + length (text_of (decoded bytes.now)) ≤ length out.old }
    ensures value { result ≡ at + length (text_of (decoded bytes.now)) }
    ensures out_after { out.new ≡ laid out.old at (text_of (decoded bytes.now)) }
{
    match record::decode(bytes) {
        Some(r) => at + put_text(&mut out[at..], r),
        None => at,
    }
}

// Writes a record's text, or answers that the area is shorter than this text. The text is made apart, so that a short area stays as it is.
#[tactic(auto, unfolding(crate::specs::RecordText::text_answer), using(crate::proofs::Written::written))]
fn write_record(r: Record, out: &mut [u8]) -> Result<usize, Refusal>
    ensures result_value { written_answer result ≡ text_answer (Some r) out.old }
    ensures result_value_2 { written_length result ≡ length (text_written (Some r) out.old) }
    ensures out_after { out.new ≡ in_front (text_written (Some r) out.old) out.old }
{
    let mut text = [0u8; LONGEST_RECORD_TEXT];
    let n = put_text(&mut text, r);
    if out.len() < n {
        return Err(Refusal::ShortArea);
    }
    area::put_bytes(out, 0, &text[0..n]);
    Ok(n)
}

// Writes the text of the record that these bytes are into the area: its length, or refusal 6 for bytes that are no record, then 5 for an
// area shorter than this text.
#[tactic(auto, unfolding(crate::specs::RecordText::text_answer), using(crate::proofs::Written::unread))]
pub fn write_text(bytes: &[u8], out: &mut [u8]) -> Result<usize, Refusal>
    ensures result_value { written_answer result ≡ text_answer (decoded bytes.now) out.old }
    ensures result_value_2 { written_length result ≡ length (text_written (decoded bytes.now) out.old) }
    ensures out_after { out.new ≡ in_front (text_written (decoded bytes.now) out.old) out.old }
{
    let r = record::decode(bytes).ok_or(Refusal::Malformed)?;
    write_record(r, out)
}
