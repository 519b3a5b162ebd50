// The box's entry points for a display: it acknowledges results, or fetches those that are held. Whatever state, stores and area come, they
// answer.
#![tactic(auto)]

ghost use Rattle.std.specs.Prelude.{◌≡◌, ◌+◌, ◌^◌, ◌≤◌, ◌<◌, take, OnErr};
ghost use Rattle.answer.specs.Refusals.{answer_of};
ghost use Rattle.settings.specs.declared.Settings.{Settings};
ghost use Rattle.settings.specs.Limits.{max_displays};
ghost use Rattle.store.specs.Lent.{viewed};
ghost use Rattle.protocol.specs.Node.{Node};
ghost use Rattle.protocol.specs.Displays.{given_up_to, newest_stable, answer_to_acknowledgement, answer_to_fetch};
ghost use Rattle.node.specs.Held.{held};
ghost use Rattle.node.specs.View.{lent_of};
ghost use Rattle.node.specs.Calls.{answered_of};
ghost use Rattle.node.specs.Displays.{acknowledged_on, fetched_on};

use answer::Refusal;
use node::State;
use store::StoreView;

// The answer to an acknowledgement that the host's tests let through.
fn acknowledgement_answer(state: &State, display: u32, id: u64) -> Result<(), Refusal>
    requires { state.now.settings.displays ≤ max_displays }
    ensures { (n : Node) →
        n.acknowledged ≡ take state.now.settings.displays state.now.acknowledged →
        newest_stable n ≡ state.now.checkpoint.number →
        answer_of result ≡ answer_to_acknowledgement state.now.settings n display id }
{
    if (display == 0) | (state.settings.displays < display) {
        return Err(Refusal::WrongDisplay);
    }
    let last = state.acknowledged[display as usize - 1];
    if (id < last) | (state.checkpoint.number < id) {
        return Err(Refusal::WrongResultId);
    }
    Ok(())
}

// The answer to a fetch that the host's tests let through.
fn fetch_answer(
    least: u64,
    displays: u32,
    newest: u64,
    display: u32,
    from: u64,
) -> Result<(), Refusal>
    requires { newest + 1 < 2 ^ 64 }
    ensures { (s : Settings) (n : Node) →
        s.displays ≡ displays →
        given_up_to n ≡ least →
        newest_stable n ≡ newest →
        answer_of result ≡ answer_to_fetch s n display from }
{
    let wrong_display = (display == 0) | (displays < display);
    let wrong_id = (from <= least) | (newest + 1 < from);
    if wrong_display {
        Err(Refusal::WrongDisplay)
    } else if wrong_id {
        Err(Refusal::WrongResultId)
    } else {
        Ok(())
    }
}

// A display has everything up to this result: its last id is this one, and what all have now is given up. Gives no record.
pub fn acknowledge(
    state: &mut State,
    readings: StoreView<'_>,
    sent: &mut [u8],
    display: u32,
    id: u64,
    area: &[u8],
) -> Result<u32, Refusal>
    ensures called { answered_of result state.new (lent_of (viewed readings.entry) sent.new) area.now ≡
        acknowledged_on (held state.old) (lent_of (viewed readings.entry) sent.old) display id area.now }
    ensures refused { OnErr result (state.new ≡ state.old) }
{
    call_shape::host_refusal(state, readings, sent, area.len())?;
    acknowledgement_answer(state, display, id)?;
    let displays = state.settings.displays as usize;
    let from = call_acknowledgements::least(&state.acknowledged[..displays]);
    state.acknowledged[display as usize - 1] = id;
    let to = call_acknowledgements::least(&state.acknowledged[..displays]);
    retransmission::give_up(sent, from, to);
    Ok(0)
}

// A display gets held results from this one on, 64 at most, from the area's first byte on. Answers how many there are.
pub fn fetch(
    state: &State,
    readings: StoreView<'_>,
    sent: &[u8],
    display: u32,
    from: u64,
    area: &mut [u8],
) -> Result<u32, Refusal>
    ensures { let lent = lent_of (viewed readings.entry) sent.now in
        answered_of result state.now lent area.new ≡ fetched_on (held state.now) lent display from area.old }
{
    call_shape::host_refusal(state, readings, sent, area.len())?;
    let displays = state.settings.displays;
    let newest = state.checkpoint.number;
    let least = call_acknowledgements::least(&state.acknowledged[..displays as usize]);
    fetch_answer(least, displays, newest, display, from)?;
    let n = (newest + 1 - from).min(retransmission::FETCH_LIMIT);
    retransmission::copy_out(sent, from - 1, n as usize, area);
    Ok(n as u32)
}
