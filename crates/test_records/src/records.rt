// The records that are shown.
use clock::ReadingTime;
use record::Record;

// The first tentative result of the listing.
pub(crate) fn tentative() -> Record {
    Record {
        sum: 7,
        id: 1,
        time: ReadingTime(0),
        count: 1,
        mean: 7,
        last: 7,
        kind: record::TENTATIVE,
        meter: 3,
    }
}

// The stable result of the listing.
pub(crate) fn stable() -> Record {
    Record {
        sum: 5,
        id: 1,
        time: ReadingTime(0),
        count: 2,
        mean: 2,
        last: -2,
        kind: record::STABLE,
        meter: 3,
    }
}

// Every number at its greatest.
pub(crate) fn greatest() -> Record {
    Record {
        sum: 9223372036854775807,
        id: 4294967295,
        time: ReadingTime(4294967295),
        count: 4294967295,
        mean: 2147483647,
        last: 2147483647,
        kind: record::UNDO,
        meter: 255,
    }
}

// Every number at its least.
pub(crate) fn least() -> Record {
    Record {
        sum: -9223372036854775808,
        id: 0,
        time: ReadingTime(0),
        count: 0,
        mean: -2147483648,
        last: -2147483648,
        kind: record::BOUNDARY,
        meter: 0,
    }
}

// Every number at the end that has the longer text.
pub(crate) fn longest() -> Record {
    Record {
        sum: -9223372036854775808,
        id: 4294967295,
        time: ReadingTime(4294967295),
        count: 4294967295,
        mean: -2147483648,
        last: -2147483648,
        kind: record::STABLE,
        meter: 255,
    }
}

// No two bytes alike but the two zeros; sum is 0xf112131415161718 - 2^64, and mean 0xf91a1b1c - 2^32.
pub(crate) fn uneven() -> Record {
    Record {
        sum: -1075776384014084328,
        id: 0x01020304,
        time: ReadingTime(0x05060708),
        count: 0x090a0b0c,
        mean: -115729636,
        last: 0x0d0e0f10,
        kind: record::DONE,
        meter: 64,
    }
}
