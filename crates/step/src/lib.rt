// One step, done by its rule; state and store of readings are in shape.
#![tactic(auto)]

ghost use Rattle.std.specs.Prelude.{◌≡◌, true, ◌≤◌, length};
ghost use Rattle.store.specs.Columns.{Columns, store_length};
ghost use Rattle.store.specs.Lent.{columns, SameLoans};
ghost use Rattle.protocol.specs.declared.Rule.{Rule as Rules};
ghost use Rattle.protocol.specs.Rules.{rule_of};
ghost use Rattle.node.specs.Sizes.{area_bytes};
ghost use Rattle.node.specs.Held.{Held, held};
ghost use Rattle.node.specs.View.{places, view};
ghost use Rattle.node.specs.Shape.{state_in_shape};
ghost use Rattle.step_outcome.specs.Done.{RuleDone};

use clock::ArrivalTick;
use node::State;
use protocol::Rule;
use store::Store;

// Does the first rule that applies at this tick, and answers how many records it gives; the clock is set where the call is accepted.
pub fn step(state: &mut State, readings: &mut Store<'_>, tick: ArrivalTick, area: &mut [u8]) -> u32
    requires { let before : Held = held state.old in
        let x : Columns = columns readings.old in
        (places before ≤ store_length x) × (state_in_shape before x ≡ true) × (area_bytes ≤ length area.old) }
    ensures same_loans { SameLoans readings.old readings.new }
    ensures done { let before : Held = held state.old in
        let x : Columns = columns readings.old in
        let rule : Rules = rule_of before.settings (view before x) tick in
        RuleDone rule before x area.old (held state.new) (columns readings.new) area.new result }
{
    match step_rule::rule_of(state, readings, tick) {
        Rule::Withdraw => step_corrections::withdraw(state, area),
        Rule::WorkStable => step_stable::work_stable(state, readings, area),
        Rule::EndCorrection => step_corrections::end_correction(state, area),
        Rule::WorkTentative => step_tentative::work_tentative(state, readings, area),
        Rule::Idle => 0,
    }
}
