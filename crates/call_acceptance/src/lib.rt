// What an accepted call does: a step, or an input on the line that it names.
#![tactic(auto)]

ghost use Rattle.std.specs.Prelude.{◌≡◌, Some, Ok};
ghost use Rattle.protocol.specs.Node.{Node};
ghost use Rattle.protocol.specs.Rules.{rule_of, act};
ghost use Rattle.protocol.specs.Refusals.{first_failed, answer_to};
ghost use Rattle.node.specs.Held.{Held, held};
ghost use Rattle.node.specs.View.{Lent, lent, SameStores, view};
ghost use Rattle.node.specs.Calls.{called_of, host_tests, laid_outcome, called_with};

use clock::ArrivalTick;
use journal::Call;
use node::{State, Stores};

// Does a step, and lays the stable results that it gives at their places in the send-back store. Answers how many records there are.
fn step_and_hold(
    state: &mut State,
    stores: &mut Stores<'_>,
    tick: ArrivalTick,
    area: &mut [u8],
) -> u32
    requires { first_failed (host_tests (held state.old) (lent stores.old) area.old) ≡ 0 }
    ensures same_stores { SameStores stores.old stores.new }
    ensures done { let before : Held = held state.old in
        let n : Node = view before (lent stores.old).readings in
        record { answer = 0; records = result; state = held state.new; lent = lent stores.new; area = area.new } ≡
        laid_outcome before (lent stores.old) area.old (act before.settings n (rule_of before.settings n tick)) }
{
    let newest = state.checkpoint.number;
    let records = step::step(state, &mut stores.readings, tick, area);
    let results = (state.checkpoint.number - newest) as usize;
    retransmission::hold(stores.sent, newest, area, results);
    records
}

// Does what an accepted call asks, and sets the clock. Answers how many records there are.
pub fn accept(state: &mut State, stores: &mut Stores<'_>, area: &mut [u8], k: Call) -> u32
    requires { let before : Held = held state.old in
        let x : Lent = lent stores.old in
        (first_failed (host_tests before x area.old) ≡ 0) × (answer_to before.settings (view before x.readings) k ≡ 0) }
    ensures same_stores { SameStores stores.old stores.new }
    ensures done { called_of (Ok result) state.new stores.new area.new ≡
        called_with (held state.old) (lent stores.old) area.old (Some k) }
{
    if k.line == 0 {
        let records = step_and_hold(state, stores, k.now, area);
        state.clock = k.now;
        return records;
    }
    let i = k.line as usize - 1;
    let base = i * store::READINGS_PER_LINE;
    let head = state.heads[i];
    state.heads[i] = call_inputs::input(head, &mut stores.readings, base, k);
    state.clock = k.now;
    0
}
