// The box's two clocks, and reading time cut into buckets and windows.
#![tactic(auto)]

ghost use Rattle.std.specs.Prelude.{◌≡◌, true, ◌<◌, ◌^◌};
ghost use Rattle.clock.specs.Buckets.{bucket_of, bucket_end, finishes};
ghost use Rattle.clock.specs.Windows.{closes_window, window_start};
ghost use Rattle.clock.specs.Hold.{is_due};

// A tick of the arrival clock, which a call carries as `now`.
#[derive(Clone, Copy, Debug, Default, PartialEq, Eq, PartialOrd, Ord)]
pub struct ArrivalTick(pub u32);

// A tick of reading time: a reading's own time, or a boundary.
#[derive(Clone, Copy, Debug, Default, PartialEq, Eq, PartialOrd, Ord)]
pub struct ReadingTime(pub u32);

// The bucket of a time.
#[tactic(auto, unfolding(crate::specs::Buckets::bucket_of))]
pub fn bucket_of(bucket: u32, t: ReadingTime) -> u32
    requires { 0 < bucket }
    ensures { result ≡ bucket_of bucket t }
{
    t.0 / bucket
}

// The end of bucket j, which may lie past the last time of 32 bits.
#[tactic(auto, using(crate::proofs::Room::product_le), unfolding(crate::specs::Buckets::bucket_end))]
pub fn bucket_end(bucket: u32, j: u32) -> u64
    ensures { result ≡ bucket_end bucket j }
{
    (j as u64) * (bucket as u64) + (bucket as u64)
}

// Whether a boundary finishes bucket j; where it does, the bucket's end is a time of 32 bits.
#[tactic(auto, unfolding(crate::specs::Buckets::finishes))]
pub fn is_finished(bucket: u32, boundary: ReadingTime, j: u32) -> bool
    ensures value { result ≡ finishes bucket boundary j }
    ensures end { result ≡ true → bucket_end bucket j < 2 ^ 32 }
{
    bucket_end(bucket, j) <= boundary.0 as u64
}

// Whether bucket j closes a window.
#[tactic(auto, unfolding(crate::specs::Windows::closes_window))]
pub fn closes_window(window: u32, j: u32) -> bool
    requires { 0 < window }
    ensures { result ≡ closes_window window j }
{
    (j as u64 + 1) % (window as u64) == 0
}

// The start of the window that bucket j closes; a window that would begin before time 0 begins there.
#[tactic(auto, using(crate::proofs::Room::product_le), unfolding(crate::specs::Windows::window_start))]
pub fn window_start(bucket: u32, window: u32, j: u32) -> u64
    ensures { result ≡ window_start bucket window j }
{
    (j as u64 + 1).saturating_sub(window as u64) * (bucket as u64)
}

// Whether a reading that arrived then has waited out the hold now.
#[tactic(auto, unfolding(crate::specs::Hold::is_due))]
pub fn is_due(hold: u32, arrival: ArrivalTick, tick: ArrivalTick) -> bool
    ensures { result ≡ is_due hold arrival tick }
{
    (arrival.0 as u64) + (hold as u64) <= tick.0 as u64
}
