// Lays records down, decodes them and writes their texts, and prints what comes out: 32 bytes and the two behind them in hexadecimal,
// the bytes of the record that the 32 are decoded as, the answer, and the row of 125 dots into which the text was written.
//
// The expected output was worked out by hand from document 01: the texts of group 1 are the record lines of its listing, the layout of
// the bytes is that of section 'Store and output area', and the answers are those of section 'Refusal by whom'; nothing was recorded from
// this program. The groups, in the order of `stdout`:
//
// 1. The records of the listing: T, U, S, B, R.
// 2. Every number at its greatest, at its least, and with its longest text (123 bytes); a record whose bytes all differ.
// 3. The S and the B of one step, one behind the other in an area of 66 bytes.
// 4. The S and the longest record with a text area one byte too short, just long enough, one byte longer, and empty.
// 5. The T with a byte changed or with another number of bytes: other kinds, zero bytes that are not zero, lengths 31, 33, 34 and 0, and 6
//    before 5; then changes that leave a record.
// 6. Which kinds are stable, tentative, a result.
#![tactic(auto)]

ghost use Rattle.std.specs.Prelude.{◌≤◌, ◌<◌};

mod records;

use answer::Refusal;
use clock::ReadingTime;
use record::Record;

fn print_bytes(rt: HostRuntime, bytes: &[u8]) {
    for b in bytes {
        let _ = print!(rt; " {b:02x}");
    }
}

// A name, bytes in hexadecimal, each behind a space, and the line's end.
fn print_line(rt: HostRuntime, name: &str, bytes: &[u8]) {
    let _ = print!(rt; "{name}");
    print_bytes(rt, bytes);
    let _ = println!(rt; "");
}

// Document 01's number of what the writer of a text answers, and the text's length.
fn print_written(rt: HostRuntime, answer: Result<usize, Refusal>) {
    let _ = match answer {
        Ok(n) => println!(rt; "answer=0 length={n}"),
        Err(refusal) => println!(rt; "answer={}", refusal.number()),
    };
}

fn print_row(rt: HostRuntime, row: &[u8; 125]) {
    let _ = rt.write_all(row);
    let _ = println!(rt; "");
}

// What the writer of a text answers on these bytes where it is lent the first `room` dots of a row of 125, and that row afterwards.
fn text_into(rt: HostRuntime, bytes: &[u8], room: usize)
    requires { room ≤ 125 }
{
    let mut row = [46u8; 125];
    let answer = record_text::write_text(bytes, &mut row[0..room]);
    print_written(rt, answer);
    print_row(rt, &row);
}

// What kinds a letter is one of.
fn kinds_of(rt: HostRuntime, letter: u8) {
    let stable = record::is_stable(letter);
    let tentative = record::is_tentative(letter);
    let result = record::is_result(letter);
    let _ = println!(rt; "kind {letter:02x} stable={stable} tentative={tentative} result={result}");
}

fn print_laid(rt: HostRuntime, r: Record) {
    let mut space = [0u8; 32];
    record::put_record(&mut space, r);
    print_line(rt, "decoded", &space);
}

// The bytes of the record that bytes are decoded as.
fn print_decoded(rt: HostRuntime, bytes: &[u8]) {
    match record::decode(bytes) {
        Some(r) => print_laid(rt, r),
        None => {
            let _ = println!(rt; "decoded none");
        }
    }
}

// A record laid over the first 32 of 34 bytes aa, decoded, and its text.
fn show(rt: HostRuntime, r: Record) {
    let mut space = [170u8; 34];
    record::put_record(&mut space, r);
    print_line(rt, "bytes", &space);
    print_decoded(rt, &space[0..32]);
    text_into(rt, &space[0..32], 125);
}

fn show_listing(rt: HostRuntime) {
    show(rt, records::tentative());
    show(rt, record::marker(record::UNDO, 0, ReadingTime(0)));
    show(rt, records::stable());
    show(rt, record::marker(record::BOUNDARY, 0, ReadingTime(100)));
    show(rt, record::marker(record::DONE, 0, ReadingTime(0)));
}

fn show_ends(rt: HostRuntime) {
    show(rt, records::greatest());
    show(rt, records::least());
    show(rt, records::longest());
    show(rt, records::uneven());
}

fn print_area(rt: HostRuntime, area: &[u8; 66]) {
    print_line(rt, "bytes", area);
}

// Two records, the second laid over the part of the area behind the first.
fn show_two(rt: HostRuntime) {
    let mut space = [170u8; 66];
    record::put_record(&mut space, records::stable());
    record::put_record(
        &mut space[32..],
        record::marker(record::BOUNDARY, 0, ReadingTime(100)),
    );
    print_area(rt, &space);
}

// A record's text where the text area has so many bytes.
fn show_in(rt: HostRuntime, r: Record, room: usize)
    requires { room ≤ 125 }
{
    let mut bytes = [0u8; 32];
    record::put_record(&mut bytes, r);
    let _ = println!(rt; "room {room}");
    text_into(rt, &bytes, room);
}

fn show_rooms(rt: HostRuntime) {
    show_in(rt, records::stable(), 55);
    show_in(rt, records::stable(), 56);
    show_in(rt, records::stable(), 57);
    show_in(rt, records::stable(), 0);
    show_in(rt, records::longest(), 122);
    show_in(rt, records::longest(), 123);
    show_in(rt, records::longest(), 124);
    show_in(rt, records::longest(), 0);
}

fn print_change(rt: HostRuntime, at: usize, byte: u8, n: usize, room: usize) {
    let _ = println!(rt; "byte {at} is {byte:02x}, bytes {n}, room {room}");
}

// What the first n bytes are decoded as, and what text they get.
fn show_first(rt: HostRuntime, space: &[u8; 34], n: usize, room: usize)
    requires n_bound { n ≤ 34 }
    requires room_bound { room ≤ 125 }
{
    let all: &[u8] = space;
    print_decoded(rt, &all[0..n]);
    text_into(rt, &all[0..n], room);
}

// The same of the tentative result and two bytes aa behind it, with one byte changed.
fn show_changed(rt: HostRuntime, at: usize, byte: u8, n: usize, room: usize)
    requires at_bound { at < 34 }
    requires n_bound { n ≤ 34 }
    requires room_bound { room ≤ 125 }
{
    let mut space = [170u8; 34];
    record::put_record(&mut space, records::tentative());
    space[at] = byte;
    print_change(rt, at, byte, n, room);
    show_first(rt, &space, n, room);
}

fn show_no_records(rt: HostRuntime) {
    show_changed(rt, 0, b'P', 32, 125);
    show_changed(rt, 0, b't', 32, 125);
    show_changed(rt, 0, 0, 32, 125);
    show_changed(rt, 0, 255, 32, 125);
    show_changed(rt, 2, 1, 32, 125);
    show_changed(rt, 2, 255, 32, 125);
    show_changed(rt, 3, 1, 32, 125);
    show_changed(rt, 3, 255, 32, 125);
}

fn show_other_lengths(rt: HostRuntime) {
    show_changed(rt, 0, b'T', 31, 125);
    show_changed(rt, 0, b'T', 33, 125);
    show_changed(rt, 0, b'T', 34, 125);
    show_changed(rt, 0, b'T', 0, 125);
    show_changed(rt, 0, b'P', 32, 0);
    show_changed(rt, 3, 1, 32, 0);
    show_changed(rt, 0, b'T', 31, 0);
}

fn show_still_records(rt: HostRuntime) {
    show_changed(rt, 0, b'T', 32, 125);
    show_changed(rt, 0, b'S', 32, 125);
    show_changed(rt, 1, 255, 32, 125);
    show_changed(rt, 33, 0, 32, 125);
    show_changed(rt, 0, b'T', 32, 54);
}

fn show_kinds(rt: HostRuntime) {
    kinds_of(rt, b'S');
    kinds_of(rt, b'T');
    kinds_of(rt, b'U');
    kinds_of(rt, b'B');
    kinds_of(rt, b'R');
    kinds_of(rt, b'P');
    kinds_of(rt, 0);
}

fn main(rt: HostRuntime) {
    show_listing(rt);
    show_ends(rt);
    show_two(rt);
    show_rooms(rt);
    show_no_records(rt);
    show_other_lengths(rt);
    show_still_records(rt);
    show_kinds(rt);
}
