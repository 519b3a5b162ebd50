// Refusals 3 to 5: what the host lends must be long enough and in shape, whatever it asks.
#![tactic(auto)]

ghost use Rattle.std.specs.Prelude.{◌≡◌, true, ◌&&◌, List, ℕ, ◌+◌, ◌*◌, ◌-◌, ◌≤◌, length, take};
ghost use Rattle.answer.specs.Refusals.{answer_of};
ghost use Rattle.settings.specs.Limits.{max_lines, max_displays, within_limits};
ghost use Rattle.store.specs.Sizes.{readings_per_line};
ghost use Rattle.store.specs.Lists.{all_of};
ghost use Rattle.store.specs.Columns.{Columns, rows};
ghost use Rattle.store.specs.Lent.{viewed};
ghost use Rattle.protocol.specs.Refusals.{first_failed};
ghost use Rattle.retransmission.specs.Sizes.{held_bytes};
ghost use Rattle.node.specs.Held.{held};
ghost use Rattle.node.specs.View.{lent_of, view_lines};
ghost use Rattle.node.specs.Shape.{head_ok, kept_ok, buckets_ok, numbers_ok, displays_ok, sent_ok, state_in_shape};
ghost use Rattle.node.specs.Opening.{shares_short};
ghost use Rattle.node.specs.Calls.{host_tests};
ghost use Rattle.call_shape.specs.Lent.{Lends, share_ok};

use answer::Refusal;
use node::{LineHead, State};
use protocol::Phase;
use store::StoreView;

// Bytes of an output area that no call is refused for.
pub const AREA_BYTES: usize = node::RECORDS_PER_CALL * record::RECORD_BYTES;

// Bytes of a send-back store that no call is refused for.
pub const HELD_BYTES: usize = retransmission::HELD_RESULTS as usize * record::RECORD_BYTES;

// The last bucket that c and p may name.
const LAST_BUCKET: u32 = 42_949_673;

// Results that one bucket can give: one for each meter.
const RESULTS_PER_BUCKET: u64 = operator::METERS as u64;

// Whether some column has no room for the shares of so many lines.
#[tactic(auto, using(crate::proofs::Short::some_column_short))]
pub fn is_short(lines: u32, readings: StoreView<'_>) -> bool
    ensures { result ≡ shares_short lines (viewed readings.entry) }
{
    let n = lines as usize * store::READINGS_PER_LINE;
    (readings.ids.len() < n)
        | (readings.times.len() < n)
        | (readings.values.len() < n)
        | (readings.arrivals.len() < n)
        | (readings.kinds.len() < n)
        | (readings.meters.len() < n)
}

#[tactic(auto, unfolding(node::specs::Shape::head_ok))]
fn is_head_ok(head: LineHead) -> bool
    ensures { result ≡ head_ok head }
{
    (head.kept as usize <= store::READINGS_PER_LINE) & (head.last_stable_id <= head.last_id)
}

// Whether a share's n readings from `base` on are S or T, of known meters, with rising ids.
#[tactic(auto, unfolding(crate::specs::Lent::share_ok, store::specs::Parts::share))]
fn is_share_ok(readings: StoreView<'_>, base: usize, n: usize) -> bool
    requires { let end = base + n in
        (n ≤ readings_per_line) × (end ≤ length readings.ids.now) × (end ≤ length readings.kinds.now) ×
        (end ≤ length readings.meters.now) }
    ensures { result ≡ share_ok base n readings.entry.ids.now readings.entry.kinds.now readings.entry.meters.now }
{
    let end = base + n;
    let kinds = &readings.kinds[base..end];
    let meters = &readings.meters[base..end];
    store_columns::are_readings(kinds, meters, operator::METER_LIMIT)
        & store_columns::ids_rise(&readings.ids[base..end])
}

// Whether the lines' heads and the readings that they keep are in shape.
fn are_lines_ok(state: &State, readings: StoreView<'_>) -> bool
    requires { let lines = state.now.settings.lines in
        let end = lines * readings_per_line in
        (lines ≤ max_lines) × (end ≤ length readings.ids.now) × (end ≤ length readings.kinds.now) ×
        (end ≤ length readings.meters.now) }
    ensures { (x : Columns) → Lends x state.now.settings.lines readings.entry →
        (let lines = state.now.settings.lines in
        let heads = state.now.heads in
        result ≡ (all_of head_ok (take lines heads) && all_of kept_ok (view_lines lines heads (rows x (lines * readings_per_line))))) }
{
    for i in 0..state.settings.lines as usize {
        let head = state.heads[i];
        if !is_head_ok(head) {
            return false;
        }
        if !is_share_ok(readings, i * store::READINGS_PER_LINE, head.kept as usize) {
            return false;
        }
    }
    true
}

// Whether c, p and the state's word fit together.
#[tactic(auto, unfolding(node::specs::Shape::buckets_ok, node::specs::Shape::phase_ok))]
fn are_buckets_ok(state: &State) -> bool
    ensures { result ≡ buckets_ok (held state.now) }
{
    let fits = match state.phase {
        Phase::Stable | Phase::Correcting => state.p == state.c,
        Phase::Failure => state.c < state.p,
    };
    (state.c <= state.p) & (state.p <= LAST_BUCKET) & fits
}

// Whether the last stable result's id and the newest one's fit c and p.
#[tactic(auto, unfolding(node::specs::Shape::numbers_ok))]
fn are_numbers_ok(state: &State) -> bool
    ensures { result ≡ numbers_ok (held state.now) }
{
    let stable = state.checkpoint.number;
    let newest = state.operator.number;
    (stable <= RESULTS_PER_BUCKET * state.c as u64)
        & (newest <= RESULTS_PER_BUCKET * state.p as u64)
        & (stable <= newest)
        & ((state.p != state.c) | (newest <= stable))
}

// Whether the settings are within their limits and the state's own numbers fit together.
fn is_state_ok(state: &State) -> bool
    ensures { result ≡ (within_limits state.now.settings && (buckets_ok (held state.now) && numbers_ok (held state.now))) }
{
    settings::within_limits(state.settings) & are_buckets_ok(state) & are_numbers_ok(state)
}

// Whether state and store are in shape, where the store is long enough. It is laid into its caller, as that is into its own.
#[inline(always)]
fn is_in_shape(state: &State, readings: StoreView<'_>) -> bool
    requires { let end = state.now.settings.lines * readings_per_line in
        (end ≤ length readings.ids.now) × (end ≤ length readings.kinds.now) × (end ≤ length readings.meters.now) }
    ensures { (x : Columns) → Lends x state.now.settings.lines readings.entry → result ≡ state_in_shape (held state.now) x }
{
    if !is_state_ok(state) {
        return false;
    }
    if !are_lines_ok(state, readings) {
        return false;
    }
    operator_bounds::are_within_bounds(&state.operator, &state.checkpoint)
}

// Whether the displays' last ids and the held places are in shape, where the send-back store is long enough.
fn are_displays_ok(state: &State, sent: &[u8]) -> bool
    requires { (1 ≤ state.now.settings.displays) × (state.now.settings.displays ≤ max_displays) × (held_bytes ≤ length sent.now) }
    ensures { result ≡ (displays_ok (held state.now) && sent_ok (held state.now) sent.now) }
{
    let newest = state.checkpoint.number;
    let displays = state.settings.displays as usize;
    let acknowledged = call_acknowledgements::span_of(&state.acknowledged[..displays]);
    if newest < acknowledged.greatest {
        return false;
    }
    if retransmission::HELD_RESULTS < newest - acknowledged.least {
        return false;
    }
    retransmission::are_held(sent, acknowledged.least, newest)
}

// The refusal that is the host's to mend, if there is one; `room` is the length of the output area. It is laid into each caller: where the
// state's place is known, empty meters are told with half as many instructions (node::State says how).
#[inline(always)]
pub fn host_refusal(
    state: &State,
    readings: StoreView<'_>,
    sent: &[u8],
    room: usize,
) -> Result<(), Refusal>
    ensures { (area : List ℕ) → length area ≡ room →
        answer_of result ≡ first_failed (host_tests (held state.now) (lent_of (viewed readings.entry) sent.now) area) }
{
    if is_short(state.settings.lines, readings) {
        return Err(Refusal::ShortStore);
    }
    if sent.len() < HELD_BYTES {
        return Err(Refusal::ShortStore);
    }
    if !is_in_shape(state, readings) {
        return Err(Refusal::OutOfShape);
    }
    if !are_displays_ok(state, sent) {
        return Err(Refusal::OutOfShape);
    }
    if room < AREA_BYTES {
        return Err(Refusal::ShortArea);
    }
    Ok(())
}
