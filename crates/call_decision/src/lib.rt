// What is decided of a call before anything changes: all its refusals, in their order.
#![tactic(auto)]

ghost use Rattle.std.specs.Prelude.{◌≡◌, true, ◌&&◌, List, ℕ, length};
ghost use Rattle.store.specs.Columns.{Columns};
ghost use Rattle.protocol.specs.Kinds.{kind_of, is_step};
ghost use Rattle.protocol.specs.Node.{Node};
ghost use Rattle.protocol.specs.Rules.{rule_of};
ghost use Rattle.protocol.specs.Displays.{lacks_places};
ghost use Rattle.node.specs.Held.{held};
ghost use Rattle.node.specs.View.{lent, view};
ghost use Rattle.node.specs.Shape.{displays_ok};
ghost use Rattle.call_decision.specs.Deciding.{decided_on, numbered};
ghost use Rattle.call_decision.specs.Stores.{StepOf, SomeStep};

use answer::Refusal;
use journal::Call;
use node::{State, Stores};
use protocol::Rule;
use store::Store;

// Refusal 15: a step whose rule would close a window with more results than there are free places. The rule is asked for only where
// fewer places are free than a window can have results.
fn lacks_places(state: &State, readings: &Store<'_>, k: Call) -> bool
    requires { SomeStep (held state.now) readings.now × (displays_ok (held state.now) ≡ true) }
    ensures { (x : Columns) → StepOf (held state.now) readings.now x →
        (let s = state.now.settings in
        let n : Node = view (held state.now) x in
        result ≡ (is_step (kind_of k.kind) && lacks_places s n (rule_of s n k.now))) }
{
    if !call_refusals::is_step(k.kind) {
        return false;
    }
    let displays = state.settings.displays as usize;
    let least = call_acknowledgements::least(&state.acknowledged[..displays]);
    let free = retransmission::HELD_RESULTS - (state.checkpoint.number - least);
    if operator::METERS as u64 <= free {
        return false;
    }
    if step_rule::rule_of(state, readings, k.now) != Rule::WorkStable {
        return false;
    }
    free < step_work::results_ahead(state, readings, state.c) as u64
}

// Decides a call by what its text is read as: the host's refusals, then the text's, then the call's, in their order; `room` is the
// length of the output area.
pub fn decide(
    state: &State,
    stores: &Stores<'_>,
    read: Option<Call>,
    room: usize,
) -> Result<Call, Refusal>
    ensures { (area : List ℕ) → length area ≡ room → numbered result ≡ decided_on (held state.now) (lent stores.now) read area }
{
    call_shape::host_refusal(state, stores.readings.view(), stores.sent, room)?;
    let k = read.ok_or(Refusal::Malformed)?;
    call_refusals::refusal(state, stores.readings.kinds, k)?;
    if lacks_places(state, &stores.readings, k) {
        return Err(Refusal::LacksPlaces);
    }
    Ok(k)
}
