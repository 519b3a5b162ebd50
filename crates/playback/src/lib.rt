// An input played: settings line, journal lines and, in a mixed input, displays' lines in, answer lines and records out.
#![tactic(auto)]

ghost use Rattle.std.specs.Prelude.{IfSome, length};
ghost use Rattle.node.specs.Held.{held};
ghost use Rattle.node.specs.View.{lent, SameStores};
ghost use Rattle.playback_cursor.specs.Cut.{Lies};
ghost use Rattle.playback.specs.Run.{Standing, standing, PlayedOut, Finished};

use node::{State, Stores};
use playback_cursor::Cursor;
pub use playback_dispatch::Mode;
use playback_start::Started;
use std::env::FillError;
use std::rt::Env;
use store::Store;

// The bytes of the buffers: a read or a write moves at most so many.
const BUFFER_BYTES: usize = 65536;

// Plays the lines to the end of the input, from the text at the cursor on.
fn play_lines(
    rt: HostRuntime,
    mode: Mode,
    state: &mut State,
    stores: &mut Stores<'_>,
    area: &mut [u8],
    buf: &mut [u8],
    out: &mut [u8],
    mut cursor: Cursor,
)
    requires { Lies buf.old (length out.old) cursor }
    ensures same_stores { SameStores stores.old stores.new }
    ensures played { let from : Standing = standing (held state.old) (lent stores.old) area.old buf.old out.old cursor in
        PlayedOut mode.mixed mode.acknowledging from (held state.new) (lent stores.new) area.new buf.new out.new }
{
    for turn in 0..u64::MAX {
        if !cursor.plays {
            return;
        }
        cursor = playback_turn::play_turn(rt, mode, state, stores, area, buf, out, cursor);
    }
}

// Plays standard input to standard output: first the settings line, then the lines after it, to the end; answers the last state.
pub fn run(rt: HostRuntime, mode: Mode) -> State
    ensures { Finished mode.mixed mode.acknowledging result }
{
    let mut ids = [0u32; store::MOST_PLACES];
    let mut times = [0u32; store::MOST_PLACES];
    let mut values = [0i32; store::MOST_PLACES];
    let mut arrivals = [0u32; store::MOST_PLACES];
    let mut kinds = [0u8; store::MOST_PLACES];
    let mut meters = [0u8; store::MOST_PLACES];
    let mut sent = [0u8; call_shape::HELD_BYTES];
    let mut area = [0u8; call_shape::AREA_BYTES];
    let mut buf = [0u8; BUFFER_BYTES];
    let mut out = [0u8; BUFFER_BYTES];
    let mut stores = Stores {
        readings: Store {
            ids: &mut ids,
            times: &mut times,
            values: &mut values,
            arrivals: &mut arrivals,
            kinds: &mut kinds,
            meters: &mut meters,
        },
        sent: &mut sent,
    };
    let started = playback_start::start(rt, &mut stores, &mut buf, &mut out);
    let Started { mut state, cursor } = started;
    play_lines(
        rt,
        mode,
        &mut state,
        &mut stores,
        &mut area,
        &mut buf,
        &mut out,
        cursor,
    );
    state
}

// What a program does: it plays, or, if it was given arguments, says on standard error how it is used.
pub fn run_or_explain(rt: HostRuntime, mode: Mode, usage: &str) -> Option<State>
    ensures { IfSome result (λ state. Finished mode.mixed mode.acknowledging state) }
{
    let has_arguments = !matches!(rt.arg(1, &mut [0u8; 1]), Err(FillError::NotPresent));
    if has_arguments {
        let _ = eprintln!(rt; "{usage}");
        return None;
    }
    Some(run(rt, mode))
}
