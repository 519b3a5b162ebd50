#![tactic(auto)]

use playback::Mode;

// Plays a journal that gets every refusal a journal line can, then goes to the limits: eight lines, of which the last has its 256 places
// taken (one more is refused until a bucket is worked), and windows of 16 buckets. The first gives the most records that a step can, of
// all 64 meters; the second comes tentatively, is withdrawn and comes again.
fn main(rt: HostRuntime) {
    playback::run(
        rt,
        Mode {
            mixed: false,
            acknowledging: false,
        },
    );
}
