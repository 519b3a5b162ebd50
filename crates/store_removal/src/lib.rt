// A bucket's readings taken out of a share, in all six columns.
#![tactic(auto)]

ghost use Rattle.std.specs.Prelude.{◌≡◌, true, false, not, List, ◌+◌, ◌<◌, ◌≤◌, ◌^◌, length};
ghost use Rattle.store.specs.declared.Reading.{Reading};
ghost use Rattle.store.specs.Sizes.{readings_per_line};
ghost use Rattle.store.specs.Lists.{keep};
ghost use Rattle.store.specs.Order.{is_in};
ghost use Rattle.store.specs.Columns.{store_length, rows_from};
ghost use Rattle.store.specs.Lent.{columns, SameLoans};
ghost use Rattle.store.specs.Parts.{with_rows_at, with_kept};
ghost use Rattle.store_places.specs.Places.{first_place, is_time_of};

use store::Store;

// Moves the n readings from `from` on down to `to` on; those that stand there already are left alone.
#[tactic(auto, unfolding(store::specs::Columns::store_length))]
fn move_run(store: &mut Store<'_>, from: usize, to: usize, n: usize)
    requires { (to ≤ from) × (from + n ≤ store_length (columns store.old)) }
    ensures same_loans { SameLoans store.old store.new }
    ensures moved { columns store.new ≡ with_rows_at (columns store.old) to (rows_from (columns store.old) from n) }
{
    if to < from {
        store_compaction::move_down(store.ids, from, to, n);
        store_compaction::move_down(store.times, from, to, n);
        store_compaction::move_down(store.values, from, to, n);
        store_compaction::move_down(store.arrivals, from, to, n);
        store_compaction::move_down(store.kinds, from, to, n);
        store_compaction::move_down(store.meters, from, to, n);
    }
}

// Where the first reading of bucket j from `from` on and before `end` is, and where behind it the next of another bucket.
fn next_run(store: &Store<'_>, from: usize, end: usize, bucket: u32, j: u32) -> (usize, usize)
    requires { (0 < bucket) × (from ≤ end) × (end ≤ length store.now.times.now) }
    ensures within { (from ≤ result.0) × (result.0 ≤ result.1) × (result.1 ≤ end) }
    ensures until { result.0 ≡ first_place (is_time_of true bucket j) from end store.now.times.now }
    ensures next { result.1 ≡ first_place (is_time_of false bucket j) result.0 end store.now.times.now }
{
    let until = store_places::next_in(store.times, from, end, bucket, j);
    let next = store_places::next_out(store.times, until, end, bucket, j);
    (until, next)
}

// Takes bucket j's readings out of a share that keeps n readings from `base` on; the others keep their order. Returns how many they are.
// Each run of readings that stay moves down as one.
#[tactic(auto, unfolding(store::specs::Columns::store_length))]
pub fn remove_bucket(store: &mut Store<'_>, base: usize, n: usize, bucket: u32, j: u32) -> usize
    requires { (0 < bucket) × (n ≤ readings_per_line) × (base + n ≤ 2 ^ 16) × (base + n ≤ store_length (columns store.old)) }
    ensures same_loans { SameLoans store.old store.new }
    ensures kept { let kept : List Reading = keep (λ q. not (is_in bucket j q)) (rows_from (columns store.old) base n) in
        (result ≡ length kept) × (columns store.new ≡ with_kept (columns store.old) base n kept) }
{
    let end = base + n;
    let mut to = base;
    let mut from = base;
    while from < end {
        let (until, next) = next_run(store, from, end, bucket, j);
        move_run(store, from, to, until - from);
        to += until - from;
        from = next;
    }
    store_columns::zero(store, to, end);
    to - base
}
