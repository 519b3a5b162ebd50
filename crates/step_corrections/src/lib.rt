// Rules 1 and 3, which give one record and look at no line: what they leave is said for every state, in shape or not.
#![tactic(auto)]

ghost use Rattle.std.specs.Prelude.{◌≤◌, ◌<◌, ◌^◌, length};
ghost use Rattle.record.specs.Sizes.{record_bytes};
ghost use Rattle.protocol.specs.declared.Rule.TheVariants as Rules;
ghost use Rattle.node.specs.Held.{held};
ghost use Rattle.step_outcome.specs.Done.{DoneAlone};

use clock::ReadingTime;
use node::State;
use protocol::Phase;

// Rule 1: tentative results are withdrawn; the operator is the checkpoint again. Answers how many records there are.
pub fn withdraw(state: &mut State, area: &mut [u8]) -> u32
    requires { (record_bytes ≤ length area.old) × (state.old.checkpoint.number < 2 ^ 32) }
    ensures { DoneAlone Rules.Withdraw (held state.old) area.old (held state.new) area.new result }
{
    let undo = record::marker(record::UNDO, state.checkpoint.number as u32, ReadingTime(0));
    record::put_record(area, undo);
    state.operator = state.checkpoint;
    state.p = state.c;
    state.phase = Phase::Correcting;
    1
}

// Rule 3: the correction is over. Answers how many records there are.
pub fn end_correction(state: &mut State, area: &mut [u8]) -> u32
    requires { record_bytes ≤ length area.old }
    ensures { DoneAlone Rules.EndCorrection (held state.old) area.old (held state.new) area.new result }
{
    let done = record::marker(record::DONE, 0, ReadingTime(0));
    record::put_record(area, done);
    state.phase = Phase::Stable;
    1
}
