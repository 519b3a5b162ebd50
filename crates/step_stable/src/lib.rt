// Rule 2: what it does to state, store and area. The host's tests have passed.
#![tactic(auto)]

ghost use Rattle.std.specs.Prelude.{◌≡◌, true, ◌*◌, ◌≤◌, ◌<◌, ◌^◌, length, take};
ghost use Rattle.clock.specs.Buckets.{bucket_end};
ghost use Rattle.settings.specs.Limits.{max_lines};
ghost use Rattle.store.specs.Sizes.{readings_per_line};
ghost use Rattle.store.specs.Lists.{Every};
ghost use Rattle.store.specs.Columns.{Columns, store_length};
ghost use Rattle.store.specs.Lent.{columns, SameLoans};
ghost use Rattle.protocol.specs.declared.Rule.TheVariants as Rules;
ghost use Rattle.node.specs.Sizes.{area_bytes};
ghost use Rattle.node.specs.Held.{Held, held};
ghost use Rattle.node.specs.View.{places};
ghost use Rattle.node.specs.Shape.{state_in_shape};
ghost use Rattle.step_outcome.specs.Done.{RuleDone};
ghost use Rattle.step_work.specs.Stores.{StoreOf, SomeStore};
ghost use Rattle.step_stable.specs.Halves.{StableWorked, ReadingsRemoved};

use clock::ReadingTime;
use node::{HEADS, LineHead, State};
use settings::Settings;
use store::Store;

// Takes bucket j's readings out of every line's share, and sets how many each line keeps in its head.
fn remove(s: Settings, heads: &mut [LineHead; HEADS], readings: &mut Store<'_>, j: u32)
    requires { (s.lines ≤ max_lines) × (0 < s.bucket) × (s.lines * readings_per_line ≤ store_length (columns readings.old)) ×
        Every (λ h. h.kept ≤ readings_per_line) (take s.lines heads.old) }
    ensures same_loans { SameLoans readings.old readings.new }
    ensures all_heads { length heads.new ≡ max_lines }
    ensures removed { ReadingsRemoved s j heads.old (columns readings.old) heads.new (columns readings.new) }
{
    for i in 0..s.lines as usize {
        let n = heads[i].kept as usize;
        let base = i * store::READINGS_PER_LINE;
        let left = store_removal::remove_bucket(readings, base, n, s.bucket, j);
        heads[i].kept = left as u32;
    }
}

// Bucket c worked as stable: its results, and behind them the boundary where it closes a window. Answers how many records there are.
fn stable_records(state: &mut State, readings: &Store<'_>, area: &mut [u8]) -> u32
    requires { let s = state.old.settings in
        SomeStore (held state.old) readings.now × (area_bytes ≤ length area.old) × (bucket_end s.bucket state.old.c < 2 ^ 32) }
    ensures { (x : Columns) → StoreOf (held state.old) readings.now x →
        StableWorked (held state.old) x area.old (held state.new) area.new result }
{
    let settings = state.settings;
    let c = state.c;
    let results = step_work::work(state, readings, record::STABLE, c, area);
    if !clock::closes_window(settings.window, c) {
        return results;
    }
    let end = ReadingTime(clock::bucket_end(settings.bucket, c) as u32);
    let at = results as usize * record::RECORD_BYTES;
    record::put_record(&mut area[at..], record::marker(record::BOUNDARY, 0, end));
    results + 1
}

// Rule 2: bucket c is worked as stable, and the checkpoint is the operator. Answers how many records there are.
pub fn work_stable(state: &mut State, readings: &mut Store<'_>, area: &mut [u8]) -> u32
    requires { let before : Held = held state.old in
        let x : Columns = columns readings.old in
        (places before ≤ store_length x) × (state_in_shape before x ≡ true) × (area_bytes ≤ length area.old) ×
        (bucket_end before.settings.bucket before.c < 2 ^ 32) }
    ensures same_loans { SameLoans readings.old readings.new }
    ensures done { RuleDone Rules.WorkStable (held state.old) (columns readings.old) area.old (held state.new) (columns readings.new)
        area.new result }
{
    let settings = state.settings;
    let c = state.c;
    let p = state.p;
    let records = stable_records(state, readings, area);
    state.checkpoint = state.operator;
    remove(settings, &mut state.heads, readings, c);
    state.c = c + 1;
    state.p = p + 1;
    records
}
