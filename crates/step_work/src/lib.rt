// A bucket's work: the bucket's readings are added to the operator, and a window that it ends is closed.
#![tactic(auto)]

ghost use Rattle.std.specs.Prelude.{◌≡◌, ℕ, ◌≤◌, ◌<◌, ◌^◌, length};
ghost use Rattle.area.specs.Laid.{in_front};
ghost use Rattle.clock.specs.Windows.{window_start};
ghost use Rattle.record.specs.Layout.{all_bytes};
ghost use Rattle.store.specs.Columns.{Columns};
ghost use Rattle.operator.specs.Work.{Worked};
ghost use Rattle.protocol.specs.Rules.{worked};
ghost use Rattle.node.specs.Sizes.{area_bytes};
ghost use Rattle.node.specs.Held.{held, with_operator};
ghost use Rattle.node.specs.View.{view};
ghost use Rattle.step_work.specs.Stores.{StoreOf, SomeStore};

use node::State;
use store::Store;

// Works bucket j with all that is kept of it, results of this kind; answers how many there are. They are laid down from the area's first
// byte on.
pub fn work(state: &mut State, readings: &Store<'_>, kind: u8, j: u32, area: &mut [u8]) -> u32
    requires { let s = state.old.settings in
        SomeStore (held state.old) readings.now × (area_bytes ≤ length area.old) × (window_start s.bucket s.window j < 2 ^ 32) }
    ensures { (x : Columns) → StoreOf (held state.old) readings.now x →
        (let done : Worked = worked state.old.settings kind j (view (held state.old) x) in
        (held state.new ≡ with_operator done.operator (held state.old)) ×
        (area.new ≡ in_front (all_bytes done.records) area.old) ×
        (result ≡ length done.records)) }
{
    let settings = state.settings;
    let kept = node_heads::kept_of(&state.heads);
    state.operator.add(settings, kept, readings, j);
    if !clock::closes_window(settings.window, j) {
        return 0;
    }
    let before = state.operator.number;
    state.operator.close(settings, kind, j, area);
    (state.operator.number - before) as u32
}

// How many results bucket j's work would give.
pub fn results_ahead(state: &State, readings: &Store<'_>, j: u32) -> u32
    requires { SomeStore (held state.now) readings.now }
    ensures { (x : Columns) → StoreOf (held state.now) readings.now x →
        ((kind : ℕ) → result ≡ length (worked state.now.settings kind j (view (held state.now) x)).records) }
{
    if !clock::closes_window(state.settings.window, j) {
        return 0;
    }
    let mut next = state.operator;
    next.add(
        state.settings,
        node_heads::kept_of(&state.heads),
        readings,
        j,
    );
    next.results_ahead()
}
