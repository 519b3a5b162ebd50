// The program replay: as merge, but every display acknowledges the stable results of a line before the next one is read.
#![tactic(auto)]

use playback::Mode;

fn main(rt: HostRuntime) {
    let mode = Mode {
        mixed: false,
        acknowledging: true,
    };
    playback::run_or_explain(
        rt,
        mode,
        "usage: replay <INPUT >OUTPUT (settings and journal lines in, answers and records out, all acknowledged)",
    );
}
