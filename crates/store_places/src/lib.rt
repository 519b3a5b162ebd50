// Whether a time is one of a bucket, and the next place whose time is, or is not.
#![tactic(auto)]

ghost use Rattle.std.specs.Prelude.{◌≡◌, true, false, ◌<◌, ◌≤◌, eqb, length, take};
ghost use Rattle.clock.specs.Buckets.{bucket_of};
ghost use Rattle.store.specs.Lists.{some_of};
ghost use Rattle.store_places.specs.Places.{first_place, is_time_of, is_from_to};

use clock::ReadingTime;

// How many times are looked at side by side.
const BLOCK: usize = 16;

// Whether a time is one of bucket j, without a division.
#[tactic(auto, using(crate::proofs::BucketTest::bucket_test), unfolding(clock::specs::Buckets::bucket_end))]
pub fn is_in(bucket: u32, j: u32, t: ReadingTime) -> bool
    requires { 0 < bucket }
    ensures { result ≡ eqb (bucket_of bucket t) j }
{
    let end = clock::bucket_end(bucket, j);
    let time = t.0 as u64;
    (end - bucket as u64 <= time) & (time < end)
}

// Whether a time lies from `first` to `last`.
#[tactic(auto, unfolding(crate::specs::Places::is_from_to))]
fn is_from_to(time: u32, first: ReadingTime, last: ReadingTime) -> bool
    ensures { result ≡ is_from_to first last time }
{
    (first.0 <= time) & (time <= last.0)
}

// Whether one of a block's times lies from `first` to `last`; without an early end, so that it goes by the vector.
#[tactic(auto, using(store::proofs::Shares::some_of_more), unfolding(store::specs::Lists::some_of))]
fn holds_time(times: &[u32; BLOCK], first: ReadingTime, last: ReadingTime) -> bool
    ensures { result ≡ some_of (is_from_to first last) times.now }
{
    let mut found = false;
    for time in times {
        found = found | is_from_to(*time, first, last);
    }
    found
}

// How many times the whole blocks before one that holds a time from `first` to `last` have.
#[tactic(auto, using(crate::proofs::FirstPlaces::block_passed), unfolding(store::specs::Lists::some_of))]
fn pass_blocks(times: &[u32], first: ReadingTime, last: ReadingTime) -> usize
    ensures { (result ≤ length times.now) × (some_of (is_from_to first last) (take result times.now) ≡ false) }
{
    let mut passed = 0;
    for block in times.as_chunks::<BLOCK>().0 {
        if holds_time(block, first, last) {
            return passed;
        }
        passed += BLOCK;
    }
    passed
}

// The place of the first time of bucket j from `from` on and before `end`, or `end`, from where
// a pass goes on either way: by blocks of times, then one by one.
pub fn next_in(times: &[u32], from: usize, end: usize, bucket: u32, j: u32) -> usize
    requires { (0 < bucket) × (from ≤ end) × (end ≤ length times.now) }
    ensures { result ≡ first_place (is_time_of true bucket j) from end times.now }
{
    let start = (j as u64) * (bucket as u64);
    let Ok(first) = u32::try_from(start) else {
        return end;
    };
    let until = start + (bucket as u64) - 1;
    let last = u32::try_from(until).unwrap_or(u32::MAX);
    let near = from + pass_blocks(&times[from..end], ReadingTime(first), ReadingTime(last));
    for at in near..end {
        if is_from_to(times[at], ReadingTime(first), ReadingTime(last)) {
            return at;
        }
    }
    end
}

// The place of the first time of another bucket from `from` on and before `end`, or `end`.
pub fn next_out(times: &[u32], from: usize, end: usize, bucket: u32, j: u32) -> usize
    requires { (0 < bucket) × (from ≤ end) × (end ≤ length times.now) }
    ensures { result ≡ first_place (is_time_of false bucket j) from end times.now }
{
    for at in from..end {
        if !is_in(bucket, j, ReadingTime(times[at])) {
            return at;
        }
    }
    end
}
