// Runs the same steps on the store as a slice of readings and on the store in six columns, and prints after each the ids in the slots and
// whether both hold the same readings, place by place. The last step but one changes the columns alone, to see that a difference is
// noticed.
//
// The expected output was worked out by hand from the definitions of the crate store_slots (specs/Slots.antt); it was not recorded from
// this program.
#![tactic(auto)]

ghost use Rattle.std.specs.Prelude.{◌≡◌, ◌+◌, ◌<◌, ◌≤◌};
ghost use Rattle.store.specs.Columns.{store_length};
ghost use Rattle.store.specs.Lent.{columns};
ghost use Rattle.store_slots.specs.Slots.{placed_at, zeroed_from, closed_slots};

use clock::{ArrivalTick, ReadingTime};
use store::{Reading, Store};

// Both stores, of eight places each.
#[derive(Drop)]
struct Both<'a> {
    slots: [Reading; 8],
    store: Store<'a>,
    ghost eight_places: { store_length (columns store) ≡ 8 },
}

// A stable reading of meter 3.
fn reading(id: u32, time: u32, arrival: u32, value: i32) -> Reading {
    Reading {
        id,
        time: ReadingTime(time),
        value,
        arrival: ArrivalTick(arrival),
        kind: b'S',
        meter: 3,
    }
}

// What became of a share that was closed up.
fn print_outcome(rt: &impl Print, outcome: Option<usize>) {
    let _ = match outcome {
        Some(n) => print!(rt; ", {n} stay"),
        None => print!(rt; ", no such share"),
    };
}

impl Both<'_> {
    // The reading in a place of the columns.
    #[tactic(auto, unfolding(store::specs::Columns::store_length))]
    fn row(&self, i: usize) -> Reading
        requires { i < 8 }
    {
        Reading {
            id: self.store.ids[i],
            time: ReadingTime(self.store.times[i]),
            value: self.store.values[i],
            arrival: ArrivalTick(self.store.arrivals[i]),
            kind: self.store.kinds[i],
            meter: self.store.meters[i],
        }
    }

    // The first place that differs.
    fn first_difference(&self) -> Option<usize> {
        for i in 0..8 {
            if self.slots[i] != self.row(i) {
                return Some(i);
            }
        }
        None
    }

    // The end of a step's line: the ids in the slots, and whether the columns hold the same readings.
    fn report(&self, rt: &impl Print) {
        let _ = print!(rt; ":");
        for r in &self.slots {
            let id = r.id;
            let _ = print!(rt; " {id}");
        }
        let _ = match self.first_difference() {
            None => println!(rt; ", the columns the same"),
            Some(at) => println!(rt; ", the columns another reading in place {at}"),
        };
    }

    // A step: a reading into a place of both stores.
    #[tactic(auto, using(crate::proofs::Eight::written))]
    fn place(&mut self, rt: &impl Print, at: usize, r: Reading)
        requires { at < 8 }
        ensures { self.new.slots ≡ placed_at at r self.old.slots }
    {
        store_slots::place(&mut self.slots, at, r);
        store_columns::place(&mut self.store, at, r);
        let id = r.id;
        let _ = print!(rt; "reading {id} into place {at}");
        self.report(rt);
    }

    // A step: places of both stores zeroed.
    #[tactic(auto, using(crate::proofs::Eight::written))]
    fn zero(&mut self, rt: &impl Print, from: usize, to: usize)
        requires { (from ≤ to) × (to ≤ 8) }
        ensures { self.new.slots ≡ zeroed_from from to self.old.slots }
    {
        store_slots::zero(&mut self.slots, from, to);
        store_columns::zero(&mut self.store, from, to);
        let _ = print!(rt; "places {from} up to {to} zeroed");
        self.report(rt);
    }

    // A step: a share of both stores closed up over bucket j's readings.
    #[tactic(auto, using(crate::proofs::Eight::kept))]
    fn close_up(&mut self, rt: &impl Print, base: usize, n: usize, bucket: u32, j: u32)
        requires { (0 < bucket) × (base + n ≤ 8) }
        ensures { self.new.slots ≡ closed_slots base n bucket j self.old.slots }
    {
        let outcome = store_slots::close_up(&mut self.slots, base, n, bucket, j);
        store_removal::remove_bucket(&mut self.store, base, n, bucket, j);
        let _ = print!(rt; "bucket {j} out of {n} from place {base}");
        print_outcome(rt, outcome);
        self.report(rt);
    }

    // Steps that the slots refuse: there is no such place, no such run of places, no such share, or a bucket has no length.
    fn refuse(&mut self, rt: &impl Print) {
        store_slots::place(&mut self.slots, 8, reading(9, 90, 93, 9));
        store_slots::zero(&mut self.slots, 4, 3);
        store_slots::zero(&mut self.slots, 5, 9);
        let _ = print!(rt; "what the slots refuse");
        for (base, n, bucket) in [(9, 0, 10), (6, 3, 10), (0, 8, 0)] {
            print_outcome(
                rt,
                store_slots::close_up(&mut self.slots, base, n, bucket, 1),
            );
        }
        self.report(rt);
    }

    // A step that the columns alone take: the place that differs is named.
    #[tactic(auto, using(crate::proofs::Eight::written))]
    fn differ(&mut self, rt: &impl Print) {
        store_columns::place(&mut self.store, 5, reading(8, 80, 83, 8));
        let _ = print!(rt; "reading 8 into place 5 of the columns only");
        self.report(rt);
    }
}

#[tactic(auto, unfolding(store::specs::Columns::store_length))]
fn main(rt: HostRuntime) {
    let mut both = Both {
        slots: [Reading::default(); 8],
        store: Store {
            ids: &mut [0; 8],
            times: &mut [0; 8],
            values: &mut [0; 8],
            arrivals: &mut [0; 8],
            kinds: &mut [0; 8],
            meters: &mut [0; 8],
        },
    };
    both.place(&rt, 1, reading(1, 3, 4, 40));
    both.place(&rt, 2, reading(2, 12, 13, -40));
    both.place(&rt, 3, reading(3, 19, 30, i32::MAX));
    both.place(&rt, 4, reading(4, 5, 31, i32::MIN));
    both.place(&rt, 5, reading(5, u32::MAX, 32, 0));
    both.place(&rt, 6, reading(6, 14, 33, 7));
    both.close_up(&rt, 1, 5, 10, 1);
    both.close_up(&rt, 1, 3, 10, 9);
    both.zero(&rt, 2, 4);
    both.zero(&rt, 8, 8);
    both.place(&rt, 6, reading(7, 44, 45, -7));
    both.close_up(&rt, 0, 8, 1, 44);
    both.refuse(&rt);
    both.differ(&rt);
    both.zero(&rt, 0, 8);
}
