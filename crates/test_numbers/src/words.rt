// Words as little-endian bytes. Each is laid from the second byte on over an area of bytes aa that has one byte more behind it.
ghost use Rattle.std.specs.Prelude.{◌+◌, ◌≤◌};

use endian::Word;
use std::fmt::Display;

fn word<W: Word + Display>(rt: HostRuntime, x: W)
    requires { W.BYTES ≤ 8 }
{
    let mut bytes = [170u8; 10];
    let area = &mut bytes[..W::BYTES + 2];
    endian::put(area, 1, x);
    let _ = print!(rt; "put{} {x}:", W::BYTES);
    for byte in area.iter() {
        let _ = print!(rt; " {byte:02x}");
    }
    let _ = println!(rt; " get{} {}", W::BYTES, endian::get::<W>(area, 1));
}

pub(crate) fn fours(rt: HostRuntime) {
    for x in [0, 1, 255, 256, 0x01020304, 2147483648, 4294967295] {
        word::<u32>(rt, x);
    }
}

pub(crate) fn eights(rt: HostRuntime) {
    for x in [
        0,
        1,
        255,
        256,
        0x01020304,
        4294967295,
        4294967296,
        0x0102030405060708,
        9223372036854775808,
        18446744073709551615,
    ] {
        word::<u64>(rt, x);
    }
}
