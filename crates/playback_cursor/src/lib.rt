// Where a playback stands in its input and its output: the next text to play, and room for its reply.
#![tactic(auto)]

ghost use Rattle.std.specs.Prelude.{◌≡◌, true, false, cond, not, MatchOption, ◌⊎◌, ◌+◌, ◌-◌, ◌<◌, ◌≤◌, length, take, drop};
ghost use Rattle.playback_reply.specs.Reply.{longest_reply};
ghost use Rattle.fields.specs.Line.{holds_line};
ghost use Rattle.playback_cursor.specs.Cut.{unread, all_read, replied, Ready, Fetched, Followed};
ghost use Rattle.playback_cursor.specs.Step.{Roomy, LinesEnd, Advanced};

use arrayvec::ArrayString;
use std::fmt::Write as _;
use std::io::{ErrorKind, Read, Write};
use std::{io, thread};

// Whether a read or a write that failed so is to be tried again: a signal interrupted it, or the other side is not ready, for which the
// program waits and lets others run.
fn may_try_again(error: io::Error) -> bool {
    match error.kind() {
        ErrorKind::WouldBlock => {
            thread::yield_now();
            true
        }
        ErrorKind::Interrupted => true,
        _ => false,
    }
}

// Says on standard error what cannot be done, and why: the system's words, without its number of the error.
fn say(rt: HostRuntime, what: &str, error: io::Error) {
    let mut text = ArrayString::<256>::new();
    let _ = write!(text, "{error}");
    let words = text.as_str();
    let reason = match words.split_once(" (os error ") {
        Some((reason, _)) => reason,
        None => words,
    };
    let _ = eprintln!(rt; "{what}: {reason}");
}

// Says on standard error that output is lost, and why.
fn say_unwritten(rt: HostRuntime, error: io::Error) {
    say(rt, "cannot write standard output", error);
}

// Says on standard error that no more input is read, and why.
fn say_unread(rt: HostRuntime, error: io::Error) {
    say(rt, "cannot read standard input", error);
}

// Writes all these bytes out; answers whether they were taken, as no bytes always are.
fn write_out(rt: HostRuntime, bytes: &[u8]) -> bool
    ensures { not result ≡ true → 0 < length bytes.now }
{
    let mut stdout = rt.stdout();
    let mut done = 0;
    for _ in 0..u64::MAX {
        if done == bytes.len() {
            return true;
        }
        match stdout.write(&bytes[done..]) {
            Ok(0) => {
                say_unwritten(rt, io::Error::from(ErrorKind::WriteZero));
                return false;
            }
            Ok(took) => done += took,
            Err(error) => {
                if !may_try_again(error) {
                    say_unwritten(rt, error);
                    return false;
                }
            }
        }
    }
    done == bytes.len()
}

// Reads once into this room; answers how many bytes came, 0 at the end of the input or where reading fails.
fn read_in(rt: HostRuntime, room: &mut [u8]) -> usize
    ensures { result ≤ length room.old }
{
    let mut stdin = rt.stdin();
    for _ in 0..u64::MAX {
        match stdin.read(room) {
            Ok(got) => return got,
            Err(error) => {
                if !may_try_again(error) {
                    say_unread(rt, error);
                    return 0;
                }
            }
        }
    }
    0
}

// Moves the n bytes from `at` on to the front.
fn shift(buf: &mut [u8], at: usize, n: usize)
    requires { at + n ≤ length buf.old }
    ensures { take n buf.new ≡ take n (drop at buf.old) }
{
    buf.copy_within(at..at + n, 0);
}

// Makes room in the output for one more reply: where it might not fit, all that is there is written out first. Answers how much of the
// output is used then; none where the write failed.
fn with_room(rt: HostRuntime, out: &[u8], used: usize) -> Option<usize>
    requires { (used ≤ length out.now) × (longest_reply ≤ length out.now) }
    ensures { MatchOption result (length out.now < used + longest_reply) (λ left. Roomy used (length out.now) left) }
{
    if used + playback_reply::LONGEST_REPLY <= out.len() {
        return Some(used);
    }
    write_out(rt, &out[..used]).then_some(0)
}

// The place behind the last 0A of the first n bytes; 0 where there is none.
fn lines_end(s: &[u8], n: usize) -> usize
    requires { n ≤ length s.now }
    ensures { LinesEnd s.now n result }
{
    match memchr::memrchr(b'\n', &s[..n]) {
        Some(at) => at + 1,
        None => 0,
    }
}

// Where a playback stands. What is unread is the buffer from `at` to `have`; the text to play next is its next line, cut from what stands
// before `whole`, the place behind the last 0A, or the end of a text that has none. How much of the output is used; whether the text is to
// be played; whether the rest of a line that filled the buffer is to be passed over next; whether nothing follows.
// Three flags and no enum: a text is played with a rest to pass over, as the last one or as neither, and a rest is passed over with none.
#[derive(Clone, Copy)]
pub struct Cursor {
    pub at: usize,
    pub whole: usize,
    pub have: usize,
    pub used: usize,
    pub plays: bool,
    pub passing: bool,
    pub last: bool,
}

// Where all that was read is one text, and all output is written.
fn all_read(end: usize, plays: bool, passing: bool, last: bool) -> Cursor
    ensures { result ≡ all_read end plays passing last }
{
    Cursor {
        at: 0,
        whole: end,
        have: end,
        used: 0,
        plays,
        passing,
        last,
    }
}

// Where nothing is read yet.
pub fn begin() -> Cursor
    ensures { result ≡ all_read 0 false false false }
{
    all_read(0, false, false, false)
}

// Where nothing more is played.
fn ended() -> Cursor
    ensures { result ≡ all_read 0 false false true }
{
    all_read(0, false, false, true)
}

// How much of the buffer to keep for the next read: what is left, or nothing of a line to pass over.
fn bytes_left(at: usize, have: usize, passing: bool) -> usize
    requires { at ≤ have }
    ensures { (at + result ≤ have) × (result ≡ cond passing 0 (have - at)) }
{
    if passing { 0 } else { have - at }
}

// Reads on behind what is left, which holds no whole line, after all output so far is written. A text that fills the buffer is played, as
// no text of the form does, and the rest of its line passed over. At the end of the input a text without 0A is played, and settings that
// never came.
fn refill(rt: HostRuntime, cursor: Cursor, opened: bool, buf: &mut [u8], out: &[u8]) -> Cursor
    requires { Ready buf.old (length out.now) cursor × (holds_line (unread buf.old cursor) ≡ false) }
    ensures { Advanced opened cursor buf.old result buf.new (length out.now) }
{
    if !write_out(rt, &out[..cursor.used]) {
        return ended();
    }
    let at = cursor.at;
    let passing = cursor.passing;
    let left = bytes_left(at, cursor.have, passing);
    if !passing & (left == buf.len()) {
        return all_read(left, true, true, false);
    }
    shift(buf, at, left);
    let got = read_in(rt, &mut buf[left..]);
    if got == 0 {
        return all_read(left, !passing & ((0 < left) | !opened), false, true);
    }
    let have = left + got;
    let whole = lines_end(buf, have);
    Cursor {
        at: 0,
        whole,
        have,
        used: 0,
        plays: false,
        passing,
        last: false,
    }
}

// Goes on to the next whole line of the buffer, which is the end of a line to pass over, or the next text; or reads on where there is none.
fn advance(rt: HostRuntime, cursor: Cursor, opened: bool, buf: &mut [u8], out: &[u8]) -> Cursor
    requires { Ready buf.old (length out.now) cursor }
    ensures { Advanced opened cursor buf.old result buf.new (length out.now) }
{
    if cursor.at == cursor.whole {
        return refill(rt, cursor, opened, buf, out);
    }
    if cursor.passing {
        let line = fields::next_line(&buf[cursor.at..cursor.whole]);
        return Cursor {
            at: cursor.at + line.len(),
            plays: false,
            passing: false,
            last: false,
            ..cursor
        };
    }
    let Some(used) = with_room(rt, out, cursor.used) else {
        return ended();
    };
    Cursor {
        used,
        plays: true,
        passing: false,
        last: false,
        ..cursor
    }
}

// Goes on to the next text to play, or to the end. Before the settings are played, the end of the input is a text too.
pub fn fetch(
    rt: HostRuntime,
    mut cursor: Cursor,
    opened: bool,
    buf: &mut [u8],
    out: &[u8],
) -> Cursor
    requires { Ready buf.old (length out.now) cursor }
    ensures { Fetched opened cursor buf.old result buf.new (length out.now) }
{
    for turn in 0..u64::MAX {
        cursor = advance(rt, cursor, opened, buf, out);
        if cursor.plays | cursor.last {
            return cursor;
        }
    }
    ended()
}

// Goes on after a text of `text` bytes is played and its reply of `reply` bytes laid behind what the output holds; behind the last, only
// what the output holds is still to be written. Mostly the next line is in the buffer and its reply has room: that is tried first.
pub fn onward(
    rt: HostRuntime,
    mut cursor: Cursor,
    text: usize,
    reply: usize,
    buf: &mut [u8],
    out: &[u8],
) -> Cursor
    requires { Ready buf.old (length out.now) (replied cursor text reply) }
    ensures { Followed cursor text reply buf.old result buf.new (length out.now) }
{
    let used = cursor.used + reply;
    if !cursor.last {
        cursor.at += text;
        cursor.used = used;
        if (cursor.at < cursor.whole)
            & (!cursor.passing & (used + playback_reply::LONGEST_REPLY <= out.len()))
        {
            cursor.plays = true;
            return cursor;
        }
        return fetch(rt, cursor, true, buf, out);
    }
    write_out(rt, &out[..used]);
    ended()
}
