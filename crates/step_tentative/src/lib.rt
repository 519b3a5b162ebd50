// Rule 4, which works a bucket tentatively and leaves the store as it is. The host's tests have passed.
#![tactic(auto)]

ghost use Rattle.std.specs.Prelude.{◌≤◌, ◌<◌, ◌^◌, length};
ghost use Rattle.clock.specs.Windows.{window_start};
ghost use Rattle.store.specs.Columns.{Columns};
ghost use Rattle.protocol.specs.declared.Rule.TheVariants as Rules;
ghost use Rattle.node.specs.Sizes.{area_bytes};
ghost use Rattle.node.specs.Held.{held};
ghost use Rattle.step_outcome.specs.Done.{RuleDone};
ghost use Rattle.step_work.specs.Stores.{StoreOf, SomeStore};

use node::State;
use protocol::Phase;
use store::Store;

// Rule 4: bucket p is worked tentatively. Answers how many records there are.
pub fn work_tentative(state: &mut State, readings: &Store<'_>, area: &mut [u8]) -> u32
    requires { let s = state.old.settings in
        SomeStore (held state.old) readings.now × (area_bytes ≤ length area.old) × (window_start s.bucket s.window state.old.p < 2 ^ 32) }
    ensures { (x : Columns) → StoreOf (held state.old) readings.now x →
        RuleDone Rules.WorkTentative (held state.old) x area.old (held state.new) x area.new result }
{
    let p = state.p;
    let records = step_work::work(state, readings, record::TENTATIVE, p, area);
    state.phase = Phase::Failure;
    state.p = p + 1;
    records
}
