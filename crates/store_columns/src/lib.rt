// The store in columns: tests over the columns of a share; then all six columns, a reading put into a place, and places zeroed.
#![tactic(auto)]

ghost use Rattle.std.specs.Prelude.{◌≡◌, true, ◌*◌, ◌^◌, ◌-◌, ◌<◌, ◌≤◌, ◌&&◌, ltb, [], ◌∷◌};
ghost use Rattle.std.specs.Prelude.{length, replicate, ◌==◌, nat_eq, nat_le, nat_lt};
ghost use Rattle.journal.specs.Kinds.{letter_t};
ghost use Rattle.store.specs.Sizes.{readings_per_line};
ghost use Rattle.store.specs.Lists.{some_of, all_of};
ghost use Rattle.store.specs.Parts.{with_rows_at};
ghost use Rattle.store.specs.Columns.{store_length, zeroed};
ghost use Rattle.store.specs.Lent.{columns, SameLoans};
ghost use Rattle.store_columns.specs.Tests.{PowerOfTwo, some_of_both, are_right, are_zero, is_late_due};
ghost use Rattle.store_columns.specs.Steps.{small_back, AreSmallSteps, AreSmallBack};
ghost use Rattle.store_columns.specs.Shape.{rises, is_reading_kind};

use clock::{ArrivalTick, ReadingTime};
use store::{Reading, Store};

// What a step up of 1 to 2^23, taken back, wraps to at the least: its nine highest bits are set. A share has too few places for such steps
// to go round and come above the first id again.
const SMALL_STEPS_BACK: u32 = 4_286_578_688;

// ---- tests over a share's columns, without an early end, so that they go by the vector
//
// Blocks of 8 ids and of 16 readings, and no loop over all: at 37 readings that loop takes 1.6 and 1.9 times as many instructions, which
// would put the day above plain C. Ids are words joined by `and`, kinds and meters bytes joined by `or`: hence a pair of functions each.

// Whether each id is above the one before it, where some step is not small.
#[tactic(auto, using(crate::proofs::Tests::few_rise), unfolding(crate::specs::Shape::rises))]
fn ids_rise_exactly(ids: &[u32]) -> bool
    requires { 1 ≤ length ids.now }
    ensures { result ≡ rises ids.now }
{
    let mut ok = true;
    for (id, next) in ids.iter().zip(&ids[1..]) {
        ok = ok & (*id < *next);
    }
    ok
}

// Lays a block of steps back over the words, each over that of its place: bits that all have set are left. It is laid into its caller,
// where the words are kept in vectors.
#[tactic(auto, using(crate::proofs::SmallSteps::step_laid))]
#[inline(always)]
fn lay_steps(words: &mut [u32; 8], ids: &[u32; 8], nexts: &[u32; 8])
    ensures as_long { length ids.now ≡ length nexts.now }
    ensures laid { AreSmallBack words.new → AreSmallBack words.old × AreSmallSteps ids.now nexts.now }
{
    for k in 0..8 {
        words[k] = words[k] & ids[k].wrapping_sub(nexts[k]);
    }
}

// The bits that all words have set.
#[tactic(auto, using(crate::proofs::SmallSteps::common_more))]
fn common_bits(words: &[u32; 8]) -> u32
    ensures { small_back ≤ result → AreSmallBack words.now }
{
    let mut common = u32::MAX;
    for word in words {
        common = common & *word;
    }
    common
}

// The bits that all steps back have set, for fewer steps than a block.
#[tactic(auto, using(crate::proofs::SmallSteps::one_laid, crate::proofs::SmallSteps::none_laid))]
fn few_steps_back(ids: &[u32], nexts: &[u32]) -> u32
    ensures { small_back ≤ result → AreSmallSteps ids.now nexts.now }
{
    let mut back = u32::MAX;
    for (id, next) in ids.iter().zip(nexts) {
        back = back & id.wrapping_sub(*next);
    }
    back
}

// The same block by block. The last block reaches back, so that nothing is left behind the whole ones.
fn steps_back(ids: &[u32], nexts: &[u32]) -> u32
    requires { length ids.now ≡ length nexts.now }
    ensures { small_back ≤ result → AreSmallSteps ids.now nexts.now }
{
    let (Some(last), Some(next_last)) = (ids.last_chunk::<8>(), nexts.last_chunk::<8>()) else {
        return few_steps_back(ids, nexts);
    };
    let mut words = [u32::MAX; 8];
    lay_steps(&mut words, last, next_last);
    for (block, next_block) in ids.as_chunks::<8>().0.iter().zip(nexts.as_chunks::<8>().0) {
        lay_steps(&mut words, block, next_block);
    }
    common_bits(&words)
}

// Whether each id is above the one before it. Mostly all steps are small, and one test tells: bits that every step back has set are left,
// and ids that went round end below the first. Without that test a full share takes twice as many
// instructions, which would put full stores above plain C.
#[tactic(auto, using(crate::proofs::Tests::few_rise, crate::proofs::SmallSteps::small_steps_rise))]
pub fn ids_rise(ids: &[u32]) -> bool
    requires { length ids.now ≤ readings_per_line }
    ensures { result ≡ rises ids.now }
{
    if ids.len() < 2 {
        return true;
    }
    let last = ids.len() - 1;
    if ids[0] < ids[last] && SMALL_STEPS_BACK <= steps_back(&ids[..last], &ids[1..]) {
        return true;
    }
    ids_rise_exactly(ids)
}

// 0 exactly if the kind is S or T and the meter below the limit: S and T are neighbours, so that of a kind less S, wrapped, only the lowest
// bit may be set, and of a meter the bits below the limit's. Bits and no Bool: by comparisons a full share takes 1.4 times as many
// instructions, which would put full stores above plain C.
#[tactic(auto, using(crate::proofs::Readings::bits_of_both, crate::proofs::Readings::power_positive))]
fn wrong_bits(kind: u8, meter: u8, limit: u8) -> u8
    requires { PowerOfTwo limit }
    ensures { (result == 0) ≡ (is_reading_kind kind && nat_lt meter limit) }
{
    (kind.wrapping_sub(journal::STABLE) & 254) | (meter & (255 - (limit - 1)))
}

// Lays the wrong bits of a block's readings over the words, each over that of its place. It is laid into its caller as well.
#[tactic(auto, using(crate::proofs::Readings::right_laid, crate::proofs::Readings::right_start))]
#[inline(always)]
fn lay_over(words: &mut [u8; 16], kinds: &[u8; 16], meters: &[u8; 16], limit: u8)
    requires { PowerOfTwo limit }
    ensures { are_zero words.new ≡ (are_zero words.old && are_right limit kinds.now meters.now) }
{
    for k in 0..16 {
        words[k] = words[k] | wrong_bits(kinds[k], meters[k], limit);
    }
}

// Whether no bit is set.
#[tactic(auto, using(crate::proofs::Readings::zero_more), unfolding(crate::specs::Tests::are_zero, store::specs::Lists::all_of))]
fn are_all_zero(words: &[u8; 16]) -> bool
    ensures { result ≡ are_zero words.now }
{
    let mut any = 0u8;
    for word in words {
        any = any | *word;
    }
    any == 0
}

// Whether every kind is S or T and every meter below a limit, for fewer readings than a block: kinds less S and meters are joined as they
// are, and told behind the loop.
#[tactic(auto, using(crate::proofs::Readings::few_one, crate::proofs::Readings::none_joined), unfolding(store::specs::Lists::all_of))]
fn are_few_readings(kinds: &[u8], meters: &[u8], limit: u8) -> bool
    requires { (length kinds.now ≡ length meters.now) × PowerOfTwo limit }
    ensures { result ≡ are_right limit kinds.now meters.now }
{
    let mut less = 0u8;
    let mut any = 0u8;
    for (kind, meter) in kinds.iter().zip(meters) {
        less = less | kind.wrapping_sub(journal::STABLE);
        any = any | *meter;
    }
    (less < 2) & (any < limit)
}

// Whether every kind is S or T and every meter below a limit, block by block. The last block reaches back, so that nothing is left behind
// the whole ones. A wrong bit ends the walk: without that way out the compiler takes up to sixteen blocks side by side and gathers them
// byte by byte, which takes 1.6 times as many instructions for full shares.
pub fn are_readings(kinds: &[u8], meters: &[u8], limit: u8) -> bool
    requires { (length kinds.now ≡ length meters.now) × PowerOfTwo limit }
    ensures { result ≡ (all_of is_reading_kind kinds.now && all_of (λ m. ltb m limit) meters.now) }
{
    let (Some(last), Some(last_meters)) = (kinds.last_chunk::<16>(), meters.last_chunk::<16>())
    else {
        return are_few_readings(kinds, meters, limit);
    };
    let mut wrong = [0u8; 16];
    lay_over(&mut wrong, last, last_meters, limit);
    for (block, meter_block) in kinds
        .as_chunks::<16>()
        .0
        .iter()
        .zip(meters.as_chunks::<16>().0)
    {
        lay_over(&mut wrong, block, meter_block, limit);
        if !are_all_zero(&wrong) {
            return false;
        }
    }
    are_all_zero(&wrong)
}

// Whether some reading is tentative.
#[tactic(auto, using(store::proofs::Shares::some_of_more), unfolding(store::specs::Lists::some_of))]
pub fn keeps_tentative(kinds: &[u8]) -> bool
    ensures { result ≡ some_of (λ kind. nat_eq kind letter_t) kinds.now }
{
    let mut found = false;
    for kind in kinds {
        found = found | (*kind == journal::TENTATIVE);
    }
    found
}

// Whether some time is not before `first` and its arrival not after `latest`.
#[tactic(auto, unfolding(crate::specs::Tests::some_of_both))]
fn some_between(times: &[u32], arrivals: &[u32], first: ReadingTime, latest: ArrivalTick) -> bool
    ensures { result ≡ some_of_both (λ t a. nat_le first.0 t && nat_le a latest.0) times.now arrivals.now }
{
    let mut found = false;
    for (time, arrival) in times.iter().zip(arrivals) {
        found = found | ((first.0 <= *time) & (*arrival <= latest.0));
    }
    found
}

// Whether some reading of bucket p or later has waited out the hold. Where one has, the bucket starts at a time of 32 bits.
#[tactic(auto, using(crate::proofs::LateDue::none_late, crate::proofs::LateDue::none_due, crate::proofs::LateDue::some_late_due))]
pub fn some_due(
    times: &[u32],
    arrivals: &[u32],
    bucket: u32,
    p: u32,
    hold: u32,
    tick: ArrivalTick,
) -> bool
    requires { 0 < bucket }
    ensures value { result ≡ some_of_both (is_late_due bucket p hold tick) times.now arrivals.now }
    ensures start { result ≡ true → p * bucket < 2 ^ 32 }
{
    let Ok(first) = u32::try_from((p as u64) * (bucket as u64)) else {
        return false;
    };
    let Some(latest) = tick.0.checked_sub(hold) else {
        return false;
    };
    some_between(times, arrivals, ReadingTime(first), ArrivalTick(latest))
}

// ---- all six columns

// Puts a reading into a place.
#[tactic(auto, unfolding(store::specs::Columns::store_length, store::specs::Parts::with_rows_at))]
pub fn place(store: &mut Store<'_>, at: usize, r: Reading)
    requires { at < store_length (columns store.old) }
    ensures same_loans { SameLoans store.old store.new }
    ensures placed { columns store.new ≡ with_rows_at (columns store.old) at (r ∷ []) }
{
    store.ids[at] = r.id;
    store.times[at] = r.time.0;
    store.values[at] = r.value;
    store.arrivals[at] = r.arrival.0;
    store.kinds[at] = r.kind;
    store.meters[at] = r.meter;
}

// Zeroes the places from `from` up to `to`.
#[tactic(auto, using(crate::proofs::Rows::zeroed_rows), unfolding(store::specs::Columns::store_length))]
pub fn zero(store: &mut Store<'_>, from: usize, to: usize)
    requires { (from ≤ to) × (to ≤ store_length (columns store.old)) }
    ensures same_loans { SameLoans store.old store.new }
    ensures zeroes { columns store.new ≡ with_rows_at (columns store.old) from (replicate (to - from) zeroed) }
{
    store.ids[from..to].fill(0);
    store.times[from..to].fill(0);
    store.values[from..to].fill(0);
    store.arrivals[from..to].fill(0);
    store.kinds[from..to].fill(0);
    store.meters[from..to].fill(0);
}
