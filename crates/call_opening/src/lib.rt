// The opening, and the state before it. Whatever state, stores and text come, it answers.
#![tactic(auto)]

ghost use Rattle.std.specs.Prelude.{◌≡◌, OnErr};
ghost use Rattle.answer.specs.Refusals.{answer_of};
ghost use Rattle.node.specs.Held.{held};
ghost use Rattle.node.specs.View.{lent, SameStores};
ghost use Rattle.node.specs.Opening.{fresh_state, closed_state, opened_on};

use answer::Refusal;
use clock::{ArrivalTick, ReadingTime};
use node::{LineHead, State, Stores};
use operator::{METERS, Operator};
use protocol::Phase;
use settings::Settings;

// A state as an opening leaves it.
fn fresh_state(s: Settings) -> State
    ensures { held result ≡ fresh_state s }
{
    let operator = Operator {
        sums: [0; METERS],
        counts: [0; METERS],
        lasts: [0; METERS],
        number: 0,
    };
    let head = LineHead {
        boundary: ReadingTime(0),
        last_id: 0,
        last_stable_id: 0,
        kept: 0,
    };
    State {
        settings: s,
        clock: ArrivalTick(0),
        c: 0,
        p: 0,
        phase: Phase::Stable,
        heads: [head; node::HEADS],
        acknowledged: [0; node::DISPLAYS],
        operator,
        checkpoint: operator,
    }
}

// The state before the first opening: no network is open, and every call on it is refused.
#[tactic(auto, unfolding(node::specs::Opening::closed_state))]
pub fn closed_state() -> State
    ensures { held result ≡ closed_state }
{
    fresh_state(Settings {
        lines: 0,
        bucket: 0,
        window: 0,
        hold: 0,
        low: 0,
        high: 0,
        displays: 0,
    })
}

// Opens a network: reads the settings, clears the state, and zeroes the lines' shares and the places of the send-back store. A refused
// opening leaves everything as it was.
pub fn open(state: &mut State, stores: &mut Stores<'_>, text: &[u8]) -> Result<(), Refusal>
    ensures same_stores { SameStores stores.old stores.new }
    ensures opened { record { answer = answer_of result; state = held state.new; lent = lent stores.new } ≡
        opened_on (held state.old) (lent stores.old) text.now }
    ensures refused { OnErr result (state.new ≡ state.old) }
{
    let s = settings::read_settings(text)?;
    if call_shape::is_short(s.lines, stores.readings.view())
        | (stores.sent.len() < call_shape::HELD_BYTES)
    {
        return Err(Refusal::ShortStore);
    }
    let end = s.lines as usize * store::READINGS_PER_LINE;
    store_columns::zero(&mut stores.readings, 0, end);
    stores.sent[0..call_shape::HELD_BYTES].fill(0);
    *state = fresh_state(s);
    Ok(())
}
