// Runs the clocks, the signed numbers and the little-endian words on the cases below, and prints each call with its result.
//
// The expected output was worked out by hand, from document 01 (sections 'Clocks, lines and readings', 'Buckets and the operator' and 'On
// the last tick and past it') and from the definitions of quotient, two's complement and little-endian; that of the means by exact
// fractions in another language, which rounds them as document 02 asks (W1). Nothing was recorded from this program. The lines of
// `stdout` stand in the order of the calls:
//
// 1. `clocks`: bucket_of, bucket_end, is_finished, is_due, closes_window, window_start.
// 2. `signs`: mean_of, magnitude, the words of 32 and 64 bits of signed numbers, and back.
// 3. `words`: words of 4 and 8 bytes put over an area of bytes aa, and what is read there.
#![tactic(auto)]

mod clocks;
mod signs;
mod words;

fn main(rt: HostRuntime) {
    clocks::buckets(rt);
    clocks::ends(rt);
    clocks::finished(rt);
    clocks::holds(rt);
    clocks::windows(rt);
    clocks::starts(rt);
    signs::means(rt);
    signs::means_of_odd_counts(rt);
    signs::means_of_even_counts(rt);
    signs::means_at_the_ends(rt);
    signs::means_at_the_far_ends(rt);
    signs::magnitudes(rt);
    signs::words32(rt);
    signs::words64(rt);
    signs::numbers32(rt);
    signs::numbers64(rt);
    words::fours(rt);
    words::eights(rt);
}
