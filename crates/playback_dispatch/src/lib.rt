// The call that a text makes.
#![tactic(auto)]

ghost use Rattle.std.specs.Prelude.{◌≡◌, ◌<◌, ℕ, Result};
ghost use Rattle.answer.specs.declared.Refusal.{Refusal};
ghost use Rattle.settings.specs.Limits.{max_displays};
ghost use Rattle.node.specs.Held.{held};
ghost use Rattle.node.specs.View.{lent, SameStores};
ghost use Rattle.node.specs.Calls.{called_of};
ghost use Rattle.node.specs.Displays.{acknowledged_on, fetched_on};
ghost use Rattle.playback_dispatch.specs.Dispatch.{caught_up, all_caught_up, followed, dispatched};
ghost use Rattle.playback_dispatch.specs.Behind.{some_behind};

use answer::Refusal;
use commands::Command;
use node::{State, Stores};

// How the lines of an input are taken: whether displays' lines may stand among the journal lines, and whether the displays acknowledge what
// is new after each journal line.
#[derive(Clone, Copy, Debug, PartialEq, Eq)]
pub struct Mode {
    pub mixed: bool,
    pub acknowledging: bool,
}

// Whether some display has not acknowledged the newest stable result.
fn is_some_behind(state: &State) -> bool
    ensures { result ≡ some_behind max_displays (held state.now) }
{
    let newest = state.checkpoint.number;
    let displays = state.settings.displays as usize;
    state
        .acknowledged
        .iter()
        .take(displays)
        .any(|id| *id < newest)
}

// A display's acknowledgement on the stores.
fn acknowledge(
    state: &mut State,
    stores: &mut Stores<'_>,
    display: u32,
    id: u64,
    area: &[u8],
) -> Result<u32, Refusal>
    ensures same_stores { SameStores stores.old stores.new }
    ensures called { called_of result state.new stores.new area.now ≡
        acknowledged_on (held state.old) (lent stores.old) display id area.now }
{
    call_displays::acknowledge(
        state,
        stores.readings.view(),
        stores.sent,
        display,
        id,
        area,
    )
}

// A display's fetch from the stores.
fn fetch(
    state: &State,
    stores: &Stores<'_>,
    display: u32,
    from: u64,
    area: &mut [u8],
) -> Result<u32, Refusal>
    ensures { called_of result state.now stores.now area.new ≡ fetched_on (held state.now) (lent stores.now) display from area.old }
{
    call_displays::fetch(
        state,
        stores.readings.view(),
        stores.sent,
        display,
        from,
        area,
    )
}

// This display acknowledges the newest stable result, if it has not yet. What an acknowledgement answers is not told: it gives no record.
fn catch_up(state: &mut State, stores: &mut Stores<'_>, display: u32, area: &[u8])
    requires { display < max_displays }
    ensures same_stores { SameStores stores.old stores.new }
    ensures caught_up { (reply : Result ℕ Refusal) →
        called_of reply state.new stores.new area.now ≡ caught_up display (called_of reply state.old stores.old area.now) }
{
    let newest = state.checkpoint.number;
    if (display < state.settings.displays) & (state.acknowledged[display as usize] < newest) {
        let _ = acknowledge(state, stores, display + 1, newest, area);
    }
}

// Every display that has not acknowledged the newest stable result does so.
fn catch_all_up(state: &mut State, stores: &mut Stores<'_>, area: &[u8])
    ensures same_stores { SameStores stores.old stores.new }
    ensures caught_up { (reply : Result ℕ Refusal) →
        called_of reply state.new stores.new area.now ≡ all_caught_up max_displays (called_of reply state.old stores.old area.now) }
{
    for display in 0..settings::MAX_DISPLAYS {
        catch_up(state, stores, display, area);
    }
}

// Makes the journal call of this text; after it the displays acknowledge what is new, if that is asked. Mostly nothing is.
fn call_journal(
    acknowledging: bool,
    state: &mut State,
    stores: &mut Stores<'_>,
    text: &[u8],
    area: &mut [u8],
) -> Result<u32, Refusal>
    ensures same_stores { SameStores stores.old stores.new }
    ensures called { called_of result state.new stores.new area.new ≡
        followed acknowledging (held state.old) (lent stores.old) text.now area.old }
{
    let reply = call::call(state, stores, text, area);
    if acknowledging && is_some_behind(state) {
        catch_all_up(state, stores, area);
    }
    reply
}

// Makes the call of this text: a journal call, or, in a mixed input, the display's call whose line it is.
pub fn make_call(
    mode: Mode,
    state: &mut State,
    stores: &mut Stores<'_>,
    text: &[u8],
    area: &mut [u8],
) -> Result<u32, Refusal>
    ensures same_stores { SameStores stores.old stores.new }
    ensures called { called_of result state.new stores.new area.new ≡
        dispatched mode.mixed mode.acknowledging (held state.old) (lent stores.old) text.now area.old }
{
    if mode.mixed {
        match commands::read_command(text) {
            Some(Command::Acknowledge(display, id)) => {
                return acknowledge(state, stores, display, id, area);
            }
            Some(Command::Fetch(display, id)) => {
                return fetch(state, stores, display, id, area);
            }
            None => {}
        }
    }
    call_journal(mode.acknowledging, state, stores, text, area)
}
