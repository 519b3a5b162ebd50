// Refusals 7 to 14: what is wrong with a call that was read, whatever rule applies.
#![tactic(auto)]

ghost use Rattle.std.specs.Prelude.{◌≡◌, ◌++◌, ◌+◌, ◌-◌, ◌*◌, ◌≤◌, eqb, length, take};
ghost use Rattle.answer.specs.Refusals.{answer_of};
ghost use Rattle.settings.specs.Limits.{max_lines};
ghost use Rattle.journal.specs.Kinds.{letter_t};
ghost use Rattle.store.specs.Lists.{Every, some_of};
ghost use Rattle.store.specs.Sizes.{readings_per_line};
ghost use Rattle.store.specs.Columns.{Columns, store_length};
ghost use Rattle.store.specs.Parts.{share};
ghost use Rattle.store_columns.specs.Shape.{is_reading_kind};
ghost use Rattle.protocol.specs.Kinds.{Kind, kind_of, is_step};
ghost use Rattle.protocol.specs.Node.{Line, keeps_tentative};
ghost use Rattle.protocol.specs.Refusals.{named_line, wrong_line, unused_field, wrong_meter, wrong_id, too_early, is_held_back, is_full};
ghost use Rattle.protocol.specs.Refusals.{first_failed, call_tests, line_tests};
ghost use Rattle.node.specs.Held.{held};
ghost use Rattle.node.specs.View.{places, view};
ghost use Rattle.call_refusals.specs.Tests.{StandsIn};

use answer::Refusal;
use clock::{ArrivalTick, ReadingTime};
use journal::Call;
use node::{LineHead, State};
use settings::Settings;

// Whether the kind is one of a reading.
#[tactic(auto, unfolding(store_columns::specs::Shape::is_reading_kind))]
fn is_reading(kind: u8) -> bool
    ensures { result ≡ is_reading_kind kind }
{
    matches!(kind, journal::STABLE | journal::TENTATIVE)
}

// Whether the kind is none of the five that name a line.
pub fn is_step(kind: u8) -> bool
    ensures { result ≡ is_step (kind_of kind) }
{
    !is_reading(kind) & !matches!(kind, journal::BOUNDARY | journal::UNDO | journal::DONE)
}

// Refusal 8: no line of that number; a step names none.
#[tactic(auto, unfolding(protocol::specs::Refusals::wrong_line))]
fn is_wrong_line(s: Settings, kind: u8, line: u8) -> bool
    ensures { result ≡ wrong_line s (kind_of kind) line }
{
    if is_step(kind) {
        return line != 0;
    }
    (line == 0) | (s.lines < line as u32)
}

// Refusal 9: something stands in a field that the kind has no use for.
fn is_field_unused(k: Call) -> bool
    ensures { result ≡ unused_field k (kind_of k.kind) }
{
    if is_reading(k.kind) {
        return false;
    }
    let rest = (k.meter != 0) | (k.value != 0);
    match k.kind {
        journal::BOUNDARY => (k.id != 0) | rest,
        journal::UNDO => (k.time.0 != 0) | rest,
        _ => (k.id != 0) | (k.time.0 != 0) | rest,
    }
}

// Refusal 10: a reading of a meter past the last one.
fn is_wrong_meter(meter: u8, kind: u8) -> bool
    ensures { result ≡ wrong_meter meter (kind_of kind) }
{
    is_reading(kind) & (operator::METER_LIMIT <= meter)
}

// Refusal 11: not the next id of a reading, or an undo to an id that cannot be undone to.
fn is_wrong_id(head: LineHead, id: u32, kind: u8) -> bool
    ensures { (l : Line) → l.last_id ≡ head.last_id → l.last_stable_id ≡ head.last_stable_id → result ≡ wrong_id l id (kind_of kind) }
{
    if is_reading(kind) {
        return id as u64 != head.last_id as u64 + 1;
    }
    (kind == journal::UNDO) & ((id < head.last_stable_id) | (head.last_id < id))
}

// Refusal 12: earlier than the line's boundary allows.
fn is_too_early(head: LineHead, time: ReadingTime, kind: u8) -> bool
    ensures { (l : Line) → l.boundary ≡ head.boundary → result ≡ too_early l time.0 (kind_of kind) }
{
    (is_reading(kind) | (kind == journal::BOUNDARY)) & (time.0 < head.boundary.0)
}

// Refusal 13: tentative readings must be undone first.
#[tactic(auto, unfolding(protocol::specs::Refusals::is_held_back, protocol::specs::Kinds::kind_of, store::specs::Parts::share))]
fn is_held_back(head: LineHead, kinds: &[u8], base: usize, kind: u8) -> bool
    requires { base + head.kept ≤ length kinds.now }
    ensures { (l : Line) → keeps_tentative l ≡ some_of (λ kept. eqb kept letter_t) (share base head.kept kinds.now) →
        result ≡ is_held_back l (kind_of kind) }
{
    matches!(kind, journal::STABLE | journal::BOUNDARY | journal::DONE)
        && store_columns::keeps_tentative(&kinds[base..base + head.kept as usize])
}

// Refusal 14: no place is left for the reading.
fn is_full(head: LineHead, kind: u8) -> bool
    ensures { (l : Line) → length l.kept ≡ head.kept → result ≡ is_full l (kind_of kind) }
{
    is_reading(kind) & (store::READINGS_PER_LINE <= head.kept as usize)
}

// The first of refusals 7 to 10, which do not look at the line.
#[tactic(auto, unfolding(protocol::specs::Tests::first_failed, protocol::specs::Refusals::call_tests))]
fn call_refusal(s: Settings, clock: ArrivalTick, k: Call) -> Result<(), Refusal>
    ensures { answer_of result ≡ first_failed (call_tests s clock k (kind_of k.kind)) }
{
    if k.now.0 < clock.0 {
        return Err(Refusal::EarlierCall);
    }
    if is_wrong_line(s, k.kind, k.line) {
        return Err(Refusal::WrongLine);
    }
    if is_field_unused(k) {
        return Err(Refusal::UnusedField);
    }
    if is_wrong_meter(k.meter, k.kind) {
        return Err(Refusal::WrongMeter);
    }
    Ok(())
}

// The first of refusals 11 to 14 of a call on a line whose share begins at `base`.
#[tactic(auto, unfolding(protocol::specs::Tests::first_failed, protocol::specs::Refusals::line_tests))]
fn line_refusal(head: LineHead, kinds: &[u8], base: usize, k: Call) -> Result<(), Refusal>
    requires { base + head.kept ≤ length kinds.now }
    ensures { (l : Line) → StandsIn head kinds.now base l → answer_of result ≡ first_failed (line_tests l k (kind_of k.kind)) }
{
    if is_wrong_id(head, k.id, k.kind) {
        return Err(Refusal::WrongId);
    }
    if is_too_early(head, k.time, k.kind) {
        return Err(Refusal::TooEarly);
    }
    if is_held_back(head, kinds, base, k.kind) {
        return Err(Refusal::HeldBack);
    }
    if is_full(head, k.kind) {
        return Err(Refusal::FullLine);
    }
    Ok(())
}

// The first of refusals 7 to 14 that fits a call, if there is one.
pub fn refusal(state: &State, kinds: &[u8], k: Call) -> Result<(), Refusal>
    requires { let s = state.now.settings in
        (s.lines ≤ max_lines) × (s.lines * readings_per_line ≤ length kinds.now) ×
        Every (λ h. h.kept ≤ readings_per_line) (take s.lines state.now.heads) }
    ensures { (x : Columns) → x.kinds ≡ kinds.now → places (held state.now) ≤ store_length x →
        (let s = state.now.settings in
        let kind : Kind = kind_of k.kind in
        answer_of result ≡
        first_failed (call_tests s state.now.clock k kind ++ line_tests (named_line (view (held state.now) x) k) k kind)) }
{
    call_refusal(state.settings, state.clock, k)?;
    if is_step(k.kind) {
        return Ok(());
    }
    let i = k.line as usize - 1;
    line_refusal(state.heads[i], kinds, i * store::READINGS_PER_LINE, k)
}
