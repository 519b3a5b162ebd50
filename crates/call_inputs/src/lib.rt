// What an accepted input does: to its line's head, and to the line's share of the store.
#![tactic(auto)]

ghost use Rattle.std.specs.Prelude.{◌≡◌, true, false, cond, ◌+◌, ◌≤◌, ◌<◌, eqb};
ghost use Rattle.journal.specs.Kinds.{letter_s, letter_b};
ghost use Rattle.store.specs.Sizes.{readings_per_line};
ghost use Rattle.store.specs.Columns.{Columns, store_length, rows_from};
ghost use Rattle.store.specs.Lent.{columns, SameLoans};
ghost use Rattle.store.specs.Parts.{with_kept, share};
ghost use Rattle.store_columns.specs.Shape.{rises};
ghost use Rattle.protocol.specs.Kinds.{kind_of};
ghost use Rattle.protocol.specs.Node.{Line, on_line, reading_of};
ghost use Rattle.protocol.specs.Refusals.{is_full};
ghost use Rattle.node.specs.View.{view_line, head_of};

use journal::Call;
use node::LineHead;
use store::{Reading, Store};

// A call's reading; its arrival is the call's `now`.
fn reading_of(k: Call) -> Reading
    ensures { result ≡ reading_of k }
{
    Reading {
        id: k.id,
        time: k.time,
        value: k.value,
        arrival: k.now,
        kind: k.kind,
        meter: k.meter,
    }
}

// The head of a line that keeps one reading more, this call's.
fn head_with(head: LineHead, k: Call) -> LineHead
    requires { head.kept < readings_per_line }
    ensures { let stable = cond (eqb k.kind letter_s) k.id head.last_stable_id in
        result ≡ record { boundary = head.boundary; last_id = k.id; last_stable_id = stable; kept = head.kept + 1 } }
{
    let mut next = head;
    next.last_id = k.id;
    next.kept = head.kept + 1;
    if k.kind == journal::STABLE {
        next.last_stable_id = k.id;
    }
    next
}

// The head of a line of which an undo to this id left `kept` readings.
fn head_cut(head: LineHead, id: u32, kept: usize) -> LineHead
    requires { kept ≤ readings_per_line }
    ensures { result ≡ record { boundary = head.boundary; last_id = id; last_stable_id = head.last_stable_id; kept = kept } }
{
    let mut next = head;
    next.last_id = id;
    next.kept = kept as u32;
    next
}

// The head of a line after an input that leaves its readings: a boundary's time is its new boundary.
fn head_at(head: LineHead, k: Call) -> LineHead
    ensures { let boundary = cond (eqb k.kind letter_b) k.time head.boundary in
        result ≡ record { boundary = boundary; last_id = head.last_id; last_stable_id = head.last_stable_id; kept = head.kept } }
{
    let mut next = head;
    if k.kind == journal::BOUNDARY {
        next.boundary = k.time;
    }
    next
}

// Takes an accepted input in, on a line whose share begins at `base`; answers the line's head.
pub fn input(head: LineHead, readings: &mut Store<'_>, base: usize, k: Call) -> LineHead
    requires { let x : Columns = columns readings.old in
        let line : Line = view_line head (rows_from x base readings_per_line) in
        (base + readings_per_line ≤ store_length x) × (head.kept ≤ readings_per_line) × (is_full line (kind_of k.kind) ≡ false) ×
        (rises (share base head.kept readings.old.ids.now) ≡ true) }
    ensures same_loans { SameLoans readings.old readings.new }
    ensures taken { let before : Columns = columns readings.old in
        let line : Line = on_line k (kind_of k.kind) (view_line head (rows_from before base readings_per_line)) in
        (result ≡ head_of line) × (columns readings.new ≡ with_kept before base head.kept line.kept) }
{
    let kept = head.kept as usize;
    match k.kind {
        journal::STABLE | journal::TENTATIVE => {
            store_columns::place(readings, base + kept, reading_of(k));
            head_with(head, k)
        }
        journal::UNDO => {
            let left = store_truncation::cut(readings, base, kept, k.id);
            head_cut(head, k.id, left)
        }
        _ => head_at(head, k),
    }
}
