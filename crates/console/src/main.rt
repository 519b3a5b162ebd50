// The program console: as merge, and it takes the lines of the displays' calls too.
#![tactic(auto)]

use playback::Mode;

fn main(rt: HostRuntime) {
    let mode = Mode {
        mixed: true,
        acknowledging: false,
    };
    playback::run_or_explain(
        rt,
        mode,
        "usage: console <INPUT >OUTPUT (settings, journal and displays' lines in, answers and records out)",
    );
}
