// The node as its caller holds it: its state, and two lent stores, readings in columns and results to be sent back.
#![tactic(auto)]

ghost use Rattle.std.specs.Prelude.{◌≡◌, length};
ghost use Rattle.settings.specs.Limits.{max_lines, max_displays};

use clock::{ArrivalTick, ReadingTime};
use operator::Operator;
use protocol::Phase;
use settings::Settings;
use store::Store;

// Lines that there are heads for: as many as the settings allow.
pub const HEADS: usize = store::LINES;

// Displays that a state has room for: as many as the settings allow.
pub const DISPLAYS: usize = settings::MAX_DISPLAYS as usize;

// Records that one call can give: a bucket's results, one for each meter, and the boundary behind them.
pub const RECORDS_PER_CALL: usize = operator::METERS + 1;

// What is known of a line; its kept readings stand in the store.
#[derive(Clone, Copy)]
pub struct LineHead {
    pub boundary: ReadingTime,
    pub last_id: u32,
    pub last_stable_id: u32,
    pub kept: u32,
}

// What is held between calls. A state with lines 0 is closed, as `closed_state` says: no network is open, and every call on it is refused.
// The operator's number is the id of the newest result, the checkpoint's that of the last stable one; 0 if there is none.
// The operator stands first, and c and p between it and the checkpoint: so the meters of both begin at multiples of 16 bytes from the
// state's own place, and where the compiler knows that place, empty meters are told with half as many instructions.
#[derive(Clone, Copy)]
pub struct State {
    pub operator: Operator,
    pub c: u32,
    pub p: u32,
    pub checkpoint: Operator,
    pub settings: Settings,
    pub clock: ArrivalTick,
    pub phase: Phase,
    pub heads: [LineHead; HEADS],
    pub acknowledged: [u64; DISPLAYS],
    // The lengths of the two arrays, which proofs read off a state.
    pub ghost all_heads: { length heads ≡ max_lines },
    pub ghost all_displays: { length acknowledged ≡ max_displays },
}

// The two stores as a host lends them: kept readings, and stable results that some display has not acknowledged.
#[derive(Drop)]
pub struct Stores<'a> {
    pub readings: Store<'a>,
    pub sent: &'a mut [u8],
}
