#![tactic(auto)]

use playback::Mode;

// Plays a journal of two lines. Undos at the last id (only the clock changes), before it and outside their range; a reading held at 49
// ticks and due at 50; each of the six kinds of call accepted in each of the three states; each of the five rules, with two corrections.
fn main(rt: HostRuntime) {
    playback::run(
        rt,
        Mode {
            mixed: false,
            acknowledging: false,
        },
    );
}
