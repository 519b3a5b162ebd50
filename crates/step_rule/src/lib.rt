// Which of the five rules of a step applies.
#![tactic(auto)]

ghost use Rattle.std.specs.Prelude.{◌≡◌, true, ◌*◌, ◌≤◌, ◌<◌, ◌^◌, length, take};
ghost use Rattle.clock.specs.Buckets.{bucket_end};
ghost use Rattle.settings.specs.Limits.{max_lines, within_limits};
ghost use Rattle.store.specs.Sizes.{readings_per_line};
ghost use Rattle.store.specs.Lists.{all_of, Every};
ghost use Rattle.store.specs.Columns.{Columns, store_length, rows};
ghost use Rattle.protocol.specs.declared.Rule.TheVariants as Rules;
ghost use Rattle.protocol.specs.Node.{is_stable_bucket};
ghost use Rattle.protocol.specs.Rules.{is_correcting, some_overdue, rule_of};
ghost use Rattle.node.specs.Held.{held};
ghost use Rattle.node.specs.View.{view_lines, view};
ghost use Rattle.node.specs.Shape.{head_ok};

use clock::ArrivalTick;
use node::{HEADS, LineHead, State};
use protocol::{Phase, Rule};
use settings::Settings;
use store::Store;

// Whether bucket j is stable. Where it is and there is a line, the bucket's end is a time of 32 bits: that line's boundary finishes it.
fn is_stable(s: Settings, heads: &[LineHead; HEADS], j: u32) -> bool
    requires { s.lines ≤ max_lines }
    ensures value { (x : Columns) → result ≡ is_stable_bucket s j (view_lines s.lines heads.now (rows x (s.lines * readings_per_line))) }
    ensures j_bound { result ≡ true → 0 < s.lines → bucket_end s.bucket j < 2 ^ 32 }
{
    let mut stable = true;
    for i in 0..s.lines as usize {
        stable &= clock::is_finished(s.bucket, heads[i].boundary, j);
    }
    stable
}

#[tactic(auto, unfolding(protocol::specs::Rules::is_correcting))]
fn is_correcting(phase: Phase) -> bool
    ensures { result ≡ is_correcting phase }
{
    matches!(phase, Phase::Correcting)
}

// Whether a kept reading of bucket p or later has waited out the hold.
fn some_overdue(state: &State, readings: &Store<'_>, tick: ArrivalTick) -> bool
    requires { let s = state.now.settings in
        let places = s.lines * readings_per_line in
        (s.lines ≤ max_lines) × (0 < s.bucket) × (places ≤ length readings.now.times.now) × (places ≤ length readings.now.arrivals.now) ×
        Every (λ h. h.kept ≤ readings_per_line) (take s.lines state.now.heads) }
    ensures value { (x : Columns) →
        x.times ≡ readings.now.times.now →
        x.arrivals ≡ readings.now.arrivals.now →
        (let s = state.now.settings in
        s.lines * readings_per_line ≤ store_length x →
        result ≡ some_overdue s state.now.p tick (view_lines s.lines state.now.heads (rows x (s.lines * readings_per_line)))) }
    ensures start { result ≡ true → state.now.p * state.now.settings.bucket < 2 ^ 32 }
{
    let s = state.settings;
    let mut found = false;
    for i in 0..s.lines as usize {
        let from = i * store::READINGS_PER_LINE;
        let head = state.heads[i];
        let to = from + head.kept as usize;
        found |= store_columns::some_due(
            &readings.times[from..to],
            &readings.arrivals[from..to],
            s.bucket,
            state.p,
            s.hold,
            tick,
        );
    }
    found
}

// The rule that applies at this tick to a state and a store in shape. Where it is rule 2, bucket c's end is a time of 32 bits, since a
// line's boundary finishes the bucket; where it is rule 4, bucket p's start is one, since a reading stands in it or behind it.
pub fn rule_of(state: &State, readings: &Store<'_>, tick: ArrivalTick) -> Rule
    requires { let s = state.now.settings in
        let places = s.lines * readings_per_line in
        (within_limits s ≡ true) × (places ≤ length readings.now.times.now) × (places ≤ length readings.now.arrivals.now) ×
        (all_of head_ok (take s.lines state.now.heads) ≡ true) }
    ensures value { (x : Columns) →
        x.times ≡ readings.now.times.now →
        x.arrivals ≡ readings.now.arrivals.now →
        (let s = state.now.settings in
        s.lines * readings_per_line ≤ store_length x → result ≡ rule_of s (view (held state.now) x) tick) }
    ensures stable_end { result ≡ Rules.WorkStable → bucket_end state.now.settings.bucket state.now.c < 2 ^ 32 }
    ensures tentative_start { result ≡ Rules.WorkTentative → state.now.p * state.now.settings.bucket < 2 ^ 32 }
{
    if is_stable(state.settings, &state.heads, state.c) {
        if state.c < state.p {
            return Rule::Withdraw;
        }
        return Rule::WorkStable;
    }
    if is_correcting(state.phase) {
        return Rule::EndCorrection;
    }
    if some_overdue(state, readings, tick) {
        return Rule::WorkTentative;
    }
    Rule::Idle
}
