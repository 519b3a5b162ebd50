// What is printed for a line: the answer line, then the records as text.
#![tactic(auto)]

ghost use Rattle.std.specs.Prelude.{◌≡◌, ◌+◌, ◌*◌, ◌≤◌, length};
ghost use Rattle.record.specs.Sizes.{record_bytes};
ghost use Rattle.record_text.specs.Sizes.{longest_record_text};
ghost use Rattle.node.specs.Sizes.{records_per_call};
ghost use Rattle.playback_reply.specs.Sizes.{longest_answer, longest_reply};
ghost use Rattle.playback_reply.specs.Reply.{word_of, answer_line, record_lines, reply_lines};
ghost use Rattle.playback_reply.specs.Parts.{state_field};
ghost use Rattle.playback_reply.specs.Put.{PutAt, PutInFront};

use protocol::Phase;

// Bytes of the longest answer line, and records that a call gives at most: one for each meter, and one more.
const LONGEST_ANSWER: usize = 54;

const MOST_RECORDS: usize = operator::METERS + 1;

// Bytes of the longest reply: an answer line and the texts of its records.
pub const LONGEST_REPLY: usize = LONGEST_ANSWER + MOST_RECORDS * record_text::LONGEST_RECORD_TEXT;

// Writes the word of a state from `at` on; answers the place behind it. A case for each word, so that each is laid as a constant. No
// Display: lines are laid over lent areas as bytes, and none of std's formatters writes into one without a copy.
#[tactic(auto, unfolding(crate::specs::Reply::word_of, crate::specs::Reply::phase_word))]
fn put_word(out: &mut [u8], at: usize, lines: u32, phase: Phase) -> usize
    requires { at + length (word_of lines phase) ≤ length out.old }
    ensures { PutAt out.old at (word_of lines phase) result out.new }
{
    if lines == 0 {
        return area::put_bytes(out, at, b"none");
    }
    match phase {
        Phase::Stable => area::put_bytes(out, at, b"stable"),
        Phase::Failure => area::put_bytes(out, at, b"failure"),
        Phase::Correcting => area::put_bytes(out, at, b"correcting"),
    }
}

// Writes the state from `at` on, to the end of the line; answers the place behind it.
#[tactic(auto, unfolding(crate::specs::Parts::state_field), using(crate::proofs::Replies::states))]
fn put_state(out: &mut [u8], at: usize, lines: u32, phase: Phase) -> usize
    requires { at + length (state_field lines phase) ≤ length out.old }
    ensures { PutAt out.old at (state_field lines phase) result out.new }
{
    let word = area::put_bytes(out, at, b" state=");
    let end = put_word(out, word, lines, phase);
    area::put_bytes(out, end, b"\n")
}

// Writes the answer line from the first place on; answers its length. Numbers and no Result: any answer can be written.
#[tactic(auto, using(crate::proofs::Replies::answers))]
pub fn put_answer(out: &mut [u8], answer: u32, records: u32, lines: u32, phase: Phase) -> usize
    requires { longest_answer ≤ length out.old }
    ensures { PutInFront out.old (answer_line answer records lines phase) result out.new }
{
    let at = fields::put_number(out, 0, b"answer=", answer);
    let at = fields::put_number(out, at, b" records=", records);
    put_state(out, at, lines, phase)
}

// Writes the texts of the area's first n records from `at` on; answers the place behind them.
#[tactic(auto, using(crate::proofs::Records::records))]
fn put_records(out: &mut [u8], at: usize, area: &[u8], n: usize) -> usize
    requires { (n * record_bytes ≤ length area.now) × (at + n * longest_record_text ≤ length out.old) }
    ensures { PutAt out.old at (record_lines n area.now) result out.new }
{
    let mut place = at;
    for i in 0..n {
        let start = i * record::RECORD_BYTES;
        let end = start + record::RECORD_BYTES;
        place = record_text::put_record(out, place, &area[start..end]);
    }
    place
}

// Writes the reply to a call from the first place on: the answer line, and the texts of the area's first records; answers its length.
#[tactic(auto, using(crate::proofs::Replies::replies))]
pub fn put_reply(
    out: &mut [u8],
    answer: u32,
    records: u32,
    lines: u32,
    phase: Phase,
    area: &[u8],
) -> usize
    requires { (longest_reply ≤ length out.old) × (records ≤ records_per_call) × (records * record_bytes ≤ length area.now) }
    ensures { PutInFront out.old (reply_lines answer records lines phase area.now) result out.new }
{
    let at = put_answer(out, answer, records, lines, phase);
    put_records(out, at, area, records as usize)
}
