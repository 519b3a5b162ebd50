// A share cut above an id, in all six columns.
#![tactic(auto)]

ghost use Rattle.std.specs.Prelude.{◌≡◌, true, List, ◌+◌, ◌-◌, ◌≤◌, leb, length, count_by};
ghost use Rattle.store.specs.declared.Reading.{Reading};
ghost use Rattle.store.specs.Lists.{keep};
ghost use Rattle.store.specs.Columns.{store_length, rows_from};
ghost use Rattle.store.specs.Lent.{columns, SameLoans};
ghost use Rattle.store.specs.Parts.{with_kept, share};
ghost use Rattle.store_columns.specs.Shape.{rises};

use store::Store;

// How many ids from `base` on and before `end` are not above `id`.
#[tactic(auto, unfolding(store::specs::Parts::share))]
fn count_up_to(store: &Store<'_>, base: usize, end: usize, id: u32) -> usize
    requires { (base ≤ end) × (end ≤ length store.now.ids.now) }
    ensures { result ≡ count_by (λ i. leb i id) (share base (end - base) store.now.ids.now) }
{
    store.ids[base..end].iter().filter(|i| **i <= id).count()
}

// Cuts the readings above an id off a share that keeps n readings from `base` on, their ids rising; returns how many it keeps then.
#[tactic(auto, unfolding(store::specs::Columns::store_length))]
pub fn cut(store: &mut Store<'_>, base: usize, n: usize, id: u32) -> usize
    requires { (base + n ≤ store_length (columns store.old)) × (rises (share base n store.old.ids.now) ≡ true) }
    ensures same_loans { SameLoans store.old store.new }
    ensures kept { let kept : List Reading = keep (λ q. leb q.id id) (rows_from (columns store.old) base n) in
        (result ≡ length kept) × (columns store.new ≡ with_kept (columns store.old) base n kept) }
{
    let end = base + n;
    let kept = count_up_to(store, base, end, id);
    store_columns::zero(store, base + kept, end);
    kept
}
