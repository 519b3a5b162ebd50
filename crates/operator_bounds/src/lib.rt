// Refusal 4's bounds over the meters of operator and checkpoint.
#![tactic(auto)]

ghost use Rattle.std.specs.Prelude.{◌≡◌, ◌^◌, ◌<◌, ◌&&◌, ℕ, ℤ, true, ◌==◌, nat_lt};
ghost use Rattle.store.specs.Lists.{all_of};
ghost use Rattle.operator_meter.specs.Bounds.{count_limit, meter_ok};
ghost use Rattle.operator.specs.Meters.{meter_count};
ghost use Rattle.operator.specs.Loaded.{operator_of};
ghost use Rattle.operator_bounds.specs.Places.{CountsOver, all_below, count_in, sum_small, sum_small_at, sums_zero_at};
ghost use Rattle.operator_bounds.specs.Places.{counts_equal_at, sums_equal_at, meters_equal};

use operator::Operator;
use signed::Signed;

// What a word's highest bit counts.
const HIGHEST_BIT: u64 = 9_223_372_036_854_775_808;

// A word whose highest bit is clear exactly if a meter with this count and sum is within its bounds: it is set in the first part where the
// count is over its limit, in the second where the sum is below the lowest of so many values, in the third where it is above the highest.
// No branch, so that the compiler takes meters side by side.
fn beyond(count: u32, sum: i64) -> u64
    ensures { (last : ℤ) → nat_lt result (2 ^ 63) ≡ meter_ok (record { sum = sum; count = count; last = last }) }
{
    let n = count as u64;
    let bits = sum.to_word();
    let left = std::num::wrapping_sub_u64(operator_meter::COUNT_LIMIT as u64, n);
    let above_lowest = std::num::wrapping_add_u64(2_147_483_648 * n, bits);
    let below_highest = std::num::wrapping_sub_u64(2_147_483_647 * n, bits);
    left | (above_lowest | below_highest)
}

// Whether every meter is within its bounds. Every one is looked at, so that the loop has no way out but its end.
fn is_each_within_bounds(o: &Operator) -> bool
    ensures { result ≡ all_of meter_ok (operator_of o.now).meters }
{
    let mut all = 0;
    for (n, sum) in o.counts.iter().zip(o.sums.iter()) {
        all |= beyond(*n, *sum);
    }
    all < HIGHEST_BIT
}

// A word whose highest bit is clear exactly if the sum's magnitude is at most 2^30 for each value: it is set in the first part where the
// sum is below the lowest such, in the second where it is above the highest.
fn beyond_half(count: u32, sum: i64) -> u64
    ensures { nat_lt result (2 ^ 63) ≡ sum_small sum count }
{
    let most = 1_073_741_824 * (count as u64);
    let bits = sum.to_word();
    std::num::wrapping_add_u64(most, bits) | std::num::wrapping_sub_u64(most, bits)
}

// Whether the sums are in the inner half of their bounds, as they mostly are. The loop is shorter than that of the bounds, and leaves the
// counts' limit out.
fn are_sums_small(o: &Operator) -> bool
    ensures { result ≡ all_below (sum_small_at o.now) meter_count }
{
    let mut all = 0;
    for (count, sum) in o.counts.iter().zip(o.sums.iter()) {
        all |= beyond_half(*count, *sum);
    }
    all < HIGHEST_BIT
}

// All counts of both, laid over each other. Here and below, counts and sums have a loop each, without a way out but its end, so that the
// compiler takes as many places side by side as their width allows.
pub fn counts_over(operator: &Operator, checkpoint: &Operator) -> u32
    ensures { CountsOver operator.now checkpoint.now result }
{
    let mut over = 0;
    for (first, second) in operator.counts.iter().zip(checkpoint.counts.iter()) {
        over |= *first | *second;
    }
    over
}

// Whether every meter is within its bounds, where a caller knows whether all counts are few.
fn is_each_ok(o: &Operator, few: bool) -> bool
    requires { few ≡ true → ((i : ℕ) → i < meter_count → count_in o.now i < count_limit) }
    ensures { result ≡ all_of meter_ok (operator_of o.now).meters }
{
    if few {
        if are_sums_small(o) {
            return true;
        }
    }
    is_each_within_bounds(o)
}

// Whether every sum of both is 0.
fn are_sums_zero(operator: &Operator, checkpoint: &Operator) -> bool
    ensures { result ≡ all_below (sums_zero_at operator.now checkpoint.now) meter_count }
{
    let mut any = 0;
    for (first, second) in operator.sums.iter().zip(checkpoint.sums.iter()) {
        any |= first.to_word() | second.to_word();
    }
    any == 0
}

// Whether the checkpoint's counts are the operator's.
fn are_counts_equal(operator: &Operator, checkpoint: &Operator) -> bool
    ensures { result ≡ all_below (counts_equal_at operator.now checkpoint.now) meter_count }
{
    let mut apart = 0;
    for (first, second) in operator.counts.iter().zip(checkpoint.counts.iter()) {
        apart |= *first ^ *second;
    }
    apart == 0
}

// Whether the checkpoint's sums are the operator's.
fn are_sums_equal(operator: &Operator, checkpoint: &Operator) -> bool
    ensures { result ≡ all_below (sums_equal_at operator.now checkpoint.now) meter_count }
{
    let mut apart = 0;
    for (first, second) in operator.sums.iter().zip(checkpoint.sums.iter()) {
        apart |= first.to_word() ^ second.to_word();
    }
    apart == 0
}

// Whether no meter of operator and checkpoint has a count or a sum, as between windows.
pub fn are_meters_empty(operator: &Operator, checkpoint: &Operator, over: u32) -> bool
    ensures { result ≡ (over == 0 && all_below (sums_zero_at operator.now checkpoint.now) meter_count) }
{
    if over != 0 {
        return false;
    }
    are_sums_zero(operator, checkpoint)
}

// Whether counts and sums of the checkpoint are the operator's, as while no tentative work is out.
#[tactic(auto, unfolding(crate::specs::Places::meters_equal))]
fn are_meters_equal(operator: &Operator, checkpoint: &Operator) -> bool
    ensures { result ≡ meters_equal operator.now checkpoint.now }
{
    if !are_counts_equal(operator, checkpoint) {
        return false;
    }
    are_sums_equal(operator, checkpoint)
}

// Whether every meter of operator and checkpoint is within its bounds; `over` is all counts, laid over each other. Where the operator's
// are, a checkpoint equal to it needs no look.
pub fn are_meters_ok(operator: &Operator, checkpoint: &Operator, over: u32) -> bool
    requires { CountsOver operator.now checkpoint.now over }
    ensures { result ≡ (all_of meter_ok (operator_of operator.now).meters && all_of meter_ok (operator_of checkpoint.now).meters) }
{
    let few = over < operator_meter::COUNT_LIMIT;
    if !is_each_ok(operator, few) {
        return false;
    }
    if are_meters_equal(operator, checkpoint) {
        return true;
    }
    is_each_ok(checkpoint, few)
}

// The same, where nothing is known of the counts. Empty meters are within their bounds. It is laid into its caller: where that knows the
// state's place, empty meters are told with half as many instructions.
#[inline(always)]
pub fn are_within_bounds(operator: &Operator, checkpoint: &Operator) -> bool
    ensures { result ≡ (all_of meter_ok (operator_of operator.now).meters && all_of meter_ok (operator_of checkpoint.now).meters) }
{
    let over = counts_over(operator, checkpoint);
    if are_meters_empty(operator, checkpoint, over) {
        return true;
    }
    are_meters_ok(operator, checkpoint, over)
}
