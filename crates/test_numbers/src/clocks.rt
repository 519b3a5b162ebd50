// The two clocks, buckets, windows and the hold.
ghost use Rattle.std.specs.Prelude.{◌<◌};

use clock::{ArrivalTick, ReadingTime};

fn bucket_of(rt: HostRuntime, length: u32, time: u32)
    requires { 0 < length }
{
    let bucket = clock::bucket_of(length, ReadingTime(time));
    let _ = println!(rt; "bucket_of({length}, {time}) = {bucket}");
}

fn bucket_end(rt: HostRuntime, length: u32, j: u32) {
    let end = clock::bucket_end(length, j);
    let _ = println!(rt; "bucket_end({length}, {j}) = {end}");
}

fn is_finished(rt: HostRuntime, length: u32, boundary: u32, j: u32) {
    let finished = clock::is_finished(length, ReadingTime(boundary), j);
    let _ = println!(rt; "is_finished({length}, {boundary}, {j}) = {finished}");
}

fn is_due(rt: HostRuntime, hold: u32, arrival: u32, now: u32) {
    let due = clock::is_due(hold, ArrivalTick(arrival), ArrivalTick(now));
    let _ = println!(rt; "is_due({hold}, {arrival}, {now}) = {due}");
}

fn closes_window(rt: HostRuntime, window: u32, j: u32)
    requires { 0 < window }
{
    let closes = clock::closes_window(window, j);
    let _ = println!(rt; "closes_window({window}, {j}) = {closes}");
}

fn window_start(rt: HostRuntime, length: u32, window: u32, j: u32) {
    let start = clock::window_start(length, window, j);
    let _ = println!(rt; "window_start({length}, {window}, {j}) = {start}");
}

// Five times in each of four lengths, then the last tick of a bucket and the first of the next.
pub(crate) fn buckets(rt: HostRuntime) {
    for length in [100, 128, 256, 36000] {
        for time in [0, 99, 100, 199, 4294967295] {
            bucket_of(rt, length, time);
        }
    }
    for (length, time) in [
        (128, 127),
        (128, 128),
        (256, 255),
        (256, 256),
        (36000, 35999),
        (36000, 36000),
    ] {
        bucket_of(rt, length, time);
    }
}

// Up to the greatest c that is in shape; none wraps at 2^32.
pub(crate) fn ends(rt: HostRuntime) {
    for (length, j) in [
        (100, 0),
        (100, 1),
        (100, 42949671),
        (100, 42949672),
        (100, 42949673),
        (128, 0),
        (128, 33554430),
        (128, 33554431),
        (128, 42949673),
        (256, 0),
        (256, 16777214),
        (256, 16777215),
        (256, 42949673),
        (36000, 0),
        (36000, 119303),
        (36000, 119304),
        (36000, 42949673),
        (4294967295, 4294967295),
    ] {
        bucket_end(rt, length, j);
    }
}

// A boundary one tick early and at the end, the last bucket, and ends at 2^32 and past it.
pub(crate) fn finished(rt: HostRuntime) {
    for (length, boundary, j) in [
        (100, 99, 0),
        (100, 100, 0),
        (100, 199, 1),
        (100, 200, 1),
        (100, 4294967295, 42949671),
        (100, 4294967295, 42949672),
        (100, 4, 42949672),
        (100, 4294967295, 42949673),
        (128, 4294967295, 33554430),
        (128, 4294967295, 33554431),
        (128, 0, 33554431),
        (256, 4294967295, 16777214),
        (256, 4294967295, 16777215),
        (256, 0, 16777215),
        (36000, 35999, 0),
        (36000, 36000, 0),
        (36000, 4294967295, 119303),
        (36000, 4294967295, 119304),
        (36000, 4294967295, 42949673),
    ] {
        is_finished(rt, length, boundary, j);
    }
}

// On both sides of the hold, sums past 2^32, and arrivals later than now.
pub(crate) fn holds(rt: HostRuntime) {
    for (hold, arrival, now) in [
        (50, 0, 49),
        (50, 0, 50),
        (50, 0, 51),
        (0, 0, 0),
        (0, 5, 5),
        (864000, 4294103295, 4294967295),
        (864000, 4294103296, 4294967295),
        (864000, 4294967295, 4294967295),
        (864000, 4294967295, 863999),
        (864000, 4294967295, 0),
        (0, 100, 99),
        (50, 100, 0),
    ] {
        is_due(rt, hold, arrival, now);
    }
}

pub(crate) fn windows(rt: HostRuntime) {
    for j in [0, 1, 42949673, 4294967295] {
        closes_window(rt, 1, j);
    }
    for j in [0, 1, 2, 3, 5, 42949673, 4294967295] {
        closes_window(rt, 3, j);
    }
    for j in [0, 14, 15, 16, 31, 4294967295] {
        closes_window(rt, 16, j);
    }
}

// Also for a j whose window would begin before time 0.
pub(crate) fn starts(rt: HostRuntime) {
    for (length, window, j) in [
        (100, 1, 0),
        (100, 1, 1),
        (100, 1, 42949672),
        (100, 3, 0),
        (100, 3, 1),
        (100, 3, 2),
        (100, 3, 5),
        (100, 16, 14),
        (100, 16, 15),
        (100, 16, 31),
        (128, 1, 33554431),
        (128, 16, 33554431),
        (256, 3, 16777214),
        (36000, 16, 31),
        (36000, 1, 42949673),
        (4294967295, 1, 4294967295),
    ] {
        window_start(rt, length, window, j);
    }
}
