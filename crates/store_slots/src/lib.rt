// The store as one lent slice of readings: a reading put into a place, places zeroed, a share closed up.
#![tactic(auto)]

ghost use Rattle.std.specs.Prelude.{◌≡◌};
ghost use Rattle.store_slots.specs.Slots.{has_place, placed_at, has_places, zeroed_from, closing_up, closed_slots};

use store::Reading;

// Puts a reading into a place; returns whether there is such a place.
#[tactic(auto, unfolding(crate::specs::Slots::has_place, crate::specs::Slots::placed_at))]
pub fn place(slots: &mut [Reading], at: usize, r: Reading) -> bool
    ensures value { result ≡ has_place at slots.old }
    ensures slots_after { slots.new ≡ placed_at at r slots.old }
{
    if at < slots.len() {
        slots[at] = r;
        return true;
    }
    false
}

// Zeroes the places from `from` up to `to`; returns whether they are there.
#[tactic(auto, unfolding(crate::specs::Slots::has_places, crate::specs::Slots::zeroed_from))]
pub fn zero(slots: &mut [Reading], from: usize, to: usize) -> bool
    ensures value { result ≡ has_places from to slots.old }
    ensures slots_after { slots.new ≡ zeroed_from from to slots.old }
{
    if to < from || slots.len() < to {
        return false;
    }
    slots[from..to].fill(Reading::default());
    true
}

// Takes bucket j's readings out of a share that keeps n readings from `base` on: the others keep their order, and the places given up are
// zeroed. Returns how many stay. Where there is no such share, nothing changes.
#[tactic(auto, unfolding(crate::specs::Slots::has_share, crate::specs::Slots::closing_up, crate::specs::Slots::closed_slots))]
pub fn close_up(slots: &mut [Reading], base: usize, n: usize, bucket: u32, j: u32) -> Option<usize>
    ensures value { result ≡ closing_up base n bucket j slots.old }
    ensures slots_after { slots.new ≡ closed_slots base n bucket j slots.old }
{
    if bucket == 0 || slots.len() < base || slots.len() - base < n {
        return None;
    }
    let mut to = base;
    for at in base..base + n {
        let r = std::mem::take(&mut slots[at]);
        if clock::bucket_of(bucket, r.time) != j {
            slots[to] = r;
            to += 1;
        }
    }
    Some(to - base)
}
