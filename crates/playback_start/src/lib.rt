// The beginning of a playback: the input's first text is the settings line, which opens the network.
#![tactic(auto)]

ghost use Rattle.std.specs.Prelude.{◌≤◌, length};
ghost use Rattle.node.specs.Held.{held};
ghost use Rattle.node.specs.View.{lent, SameStores};
ghost use Rattle.node.specs.Opening.{opened_on};
ghost use Rattle.playback_reply.specs.Reply.{longest_answer, longest_reply};
ghost use Rattle.playback_start.specs.Answered.{Answered};
ghost use Rattle.playback_start.specs.Start.{Begun};

use node::{State, Stores};
use playback_cursor::Cursor;

// A state, and where a playback stands behind the text that left it.
#[derive(Clone, Copy)]
pub struct Started {
    pub state: State,
    pub cursor: Cursor,
}

// Opens with this settings text and writes what is printed for it from the first place of `out` on; answers how many bytes that is.
fn play_settings(state: &mut State, stores: &mut Stores<'_>, text: &[u8], out: &mut [u8]) -> usize
    requires { longest_answer ≤ length out.old }
    ensures same_stores { SameStores stores.old stores.new }
    ensures answered { Answered (opened_on (held state.old) (lent stores.old) text.now) out.old (held state.new) (lent stores.new)
        result out.new }
{
    let answer = answer::number_of(call_opening::open(state, stores, text));
    playback_reply::put_answer(out, answer, 0, state.settings.lines, state.phase)
}

// Plays the settings on the state before the first opening, and goes on to the first journal line; where they are refused, to the end.
pub fn start(rt: HostRuntime, stores: &mut Stores<'_>, buf: &mut [u8], out: &mut [u8]) -> Started
    requires { longest_reply ≤ length out.old }
    ensures same_stores { SameStores stores.old stores.new }
    ensures begun { Begun buf.old out.old (lent stores.old) result buf.new out.new (lent stores.new) }
{
    let mut state = call_opening::closed_state();
    let mut cursor = playback_cursor::fetch(rt, playback_cursor::begin(), false, buf, out);
    let text = fields::next_line(&buf[cursor.at..cursor.whole]);
    let length = text.len();
    let used = play_settings(&mut state, stores, text, &mut out[cursor.used..]);
    cursor.last |= state.settings.lines == 0;
    let cursor = playback_cursor::onward(rt, cursor, length, used, buf, out);
    Started { state, cursor }
}
