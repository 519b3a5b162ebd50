// Signed numbers: mean, magnitude and two's complement.
ghost use Rattle.signed.specs.Range.{InRange};

use signed::Signed;

fn mean_of(rt: HostRuntime, sum: i64, count: u32)
    requires { InRange sum count }
{
    let mean = signed::mean_of(sum, count);
    let _ = println!(rt; "mean_of({sum}, {count}) = {mean}");
}

// The papers' five examples, then halves. A call for each, and no table of them: that a sum is in range is found from the numbers at a
// call, and not of each item of a loop.
pub(crate) fn means(rt: HostRuntime) {
    mean_of(rt, 5, 2);
    mean_of(rt, -5, 2);
    mean_of(rt, 7, 3);
    mean_of(rt, -8, 3);
    mean_of(rt, 7, 2);
    mean_of(rt, -7, 2);
    mean_of(rt, 1, 2);
    mean_of(rt, -1, 2);
    mean_of(rt, 3, 2);
    mean_of(rt, -3, 2);
}

// Thirds and fifths, and the mean of nothing.
pub(crate) fn means_of_odd_counts(rt: HostRuntime) {
    mean_of(rt, 1, 3);
    mean_of(rt, -1, 3);
    mean_of(rt, 2, 3);
    mean_of(rt, -2, 3);
    mean_of(rt, 12, 5);
    mean_of(rt, -12, 5);
    mean_of(rt, 13, 5);
    mean_of(rt, -13, 5);
    mean_of(rt, 0, 5);
    mean_of(rt, 0, 0);
}

// Quarters and sixths.
pub(crate) fn means_of_even_counts(rt: HostRuntime) {
    mean_of(rt, 1, 4);
    mean_of(rt, 2, 4);
    mean_of(rt, -2, 4);
    mean_of(rt, 9, 4);
    mean_of(rt, 10, 4);
    mean_of(rt, -10, 4);
    mean_of(rt, 11, 4);
    mean_of(rt, 15, 6);
    mean_of(rt, -15, 6);
    mean_of(rt, 21, 6);
    mean_of(rt, -21, 6);
}

// At the ends of the range, of one value and of as many as a state can count; half a step inside and a little more.
pub(crate) fn means_at_the_ends(rt: HostRuntime) {
    mean_of(rt, 2147483647, 1);
    mean_of(rt, -2147483648, 1);
    mean_of(rt, 70368744144896, 32768);
    mean_of(rt, 70368744128513, 32768);
    mean_of(rt, 70368744128512, 32768);
    mean_of(rt, 70368744128511, 32768);
    mean_of(rt, -70368744177664, 32768);
    mean_of(rt, -70368744161281, 32768);
    mean_of(rt, -70368744161280, 32768);
    mean_of(rt, -70368744161279, 32768);
}

// The same of as many as there can be once a bucket is added to that, and of as many as 32 bits can count, even and odd.
pub(crate) fn means_at_the_far_ends(rt: HostRuntime) {
    mean_of(rt, 74766790653952, 34816);
    mean_of(rt, 74766790636544, 34816);
    mean_of(rt, -74766790688768, 34816);
    mean_of(rt, -74766790671360, 34816);
    mean_of(rt, 9223372028264841218, 4294967294);
    mean_of(rt, 9223372026117357571, 4294967294);
    mean_of(rt, -9223372032559808512, 4294967294);
    mean_of(rt, -9223372030412324865, 4294967294);
    mean_of(rt, 9223372030412324865, 4294967295);
    mean_of(rt, -9223372034707292160, 4294967295);
}

pub(crate) fn magnitudes(rt: HostRuntime) {
    for x in [
        0,
        1,
        -1,
        9223372036854775807,
        -9223372036854775807,
        -9223372036854775808,
    ] {
        let _ = println!(rt; "magnitude({x}) = {}", signed::magnitude(x));
    }
}

pub(crate) fn words32(rt: HostRuntime) {
    for x in [0, 1, -1, 2147483647, -2147483647, -2147483648] {
        let _ = println!(rt; "bits32({x}) = {}", i32::to_word(x));
    }
}

pub(crate) fn words64(rt: HostRuntime) {
    for x in [
        0,
        1,
        -1,
        9223372036854775807,
        -9223372036854775807,
        -9223372036854775808,
    ] {
        let _ = println!(rt; "bits64({x}) = {}", i64::to_word(x));
    }
}

pub(crate) fn numbers32(rt: HostRuntime) {
    for word in [0, 1, 2147483647, 2147483648, 2147483649, 4294967295] {
        let _ = println!(rt; "signed32({word}) = {}", i32::from_word(word));
    }
}

pub(crate) fn numbers64(rt: HostRuntime) {
    for word in [
        0,
        1,
        9223372036854775807,
        9223372036854775808,
        9223372036854775809,
        18446744073709551615,
    ] {
        let _ = println!(rt; "signed64({word}) = {}", i64::from_word(word));
    }
}
