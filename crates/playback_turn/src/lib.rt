// One turn of a playback: a text's call is made and its reply laid down.
#![tactic(auto)]

ghost use Rattle.std.specs.Prelude.{◌≡◌, List, ℕ, ◌≤◌, length};
ghost use Rattle.node.specs.Held.{held};
ghost use Rattle.node.specs.View.{lent, SameStores};
ghost use Rattle.node.specs.Calls.{Called, records_of};
ghost use Rattle.playback_dispatch.specs.Dispatch.{dispatched};
ghost use Rattle.playback_reply.specs.Reply.{longest_reply};
ghost use Rattle.playback_cursor.specs.Cut.{Lies, text_at};
ghost use Rattle.playback_turn.specs.Replied.{Replied};
ghost use Rattle.playback_turn.specs.Turn.{Turned};

use answer::Refusal;
use node::{State, Stores};
use playback_cursor::Cursor;
use playback_dispatch::Mode;

// How many records a reply gives: none where the call is refused.
#[tactic(auto, unfolding(node::specs::Calls::records_of))]
fn records_of(reply: Result<u32, Refusal>) -> u32
    ensures { result ≡ records_of reply }
{
    reply.unwrap_or(0)
}

// Makes the call of this text and writes what is printed for it from the first place of `out` on; answers how many bytes that is.
fn play_line(
    mode: Mode,
    state: &mut State,
    stores: &mut Stores<'_>,
    text: &[u8],
    area: &mut [u8],
    out: &mut [u8],
) -> usize
    requires { longest_reply ≤ length out.old }
    ensures same_stores { SameStores stores.old stores.new }
    ensures replied { let call : Called = dispatched mode.mixed mode.acknowledging (held state.old) (lent stores.old) text.now area.old in
        Replied call out.old (held state.new) (lent stores.new) area.new result out.new }
{
    let reply = playback_dispatch::make_call(mode, state, stores, text, area);
    let answer = answer::number_of(reply);
    let records = records_of(reply);
    playback_reply::put_reply(
        out,
        answer,
        records,
        state.settings.lines,
        state.phase,
        area,
    )
}

// Plays the text at the cursor: its call is made, the reply laid behind what the output holds, and the cursor goes on to the next text.
pub fn play_turn(
    rt: HostRuntime,
    mode: Mode,
    state: &mut State,
    stores: &mut Stores<'_>,
    area: &mut [u8],
    buf: &mut [u8],
    out: &mut [u8],
    cursor: Cursor,
) -> Cursor
    requires { Lies buf.old (length out.old) cursor }
    ensures same_stores { SameStores stores.old stores.new }
    ensures turned { let text : List ℕ = text_at buf.old cursor in
        let call : Called = dispatched mode.mixed mode.acknowledging (held state.old) (lent stores.old) text area.old in
        Turned call cursor buf.old out.old (held state.new) result (lent stores.new) area.new buf.new out.new }
{
    let text = fields::next_line(&buf[cursor.at..cursor.whole]);
    let length = text.len();
    let used = play_line(mode, state, stores, text, area, &mut out[cursor.used..]);
    playback_cursor::onward(rt, cursor, length, used, buf, out)
}
