// Runs the readers of the settings line and of the journal line on every line of standard input, and the writer of the journal line on
// each call that was read: prints document 01's two numbers of the answers, and behind a journal answer of 0 the line as written again.
//
// The expected output was written by hand, from the form, the widths and the limits that document 01 gives (section 'Clocks, lines and
// readings') and its refusals 1, 2 and 6; it was not recorded from this program. A journal line of the form has two lines of output, every
// other line has one. The groups, by their lines in `stdin` and in `stdout`, where only 0A ends a line:
//
//  1. 1-10, 1-19: the ten lines of document 01's example, written out; the settings come first.
//  2. 11-31, 20-61: journal lines of the form: fields at their ends, each letter, unused fields that are not 0; the last has 89 bytes.
//  3. 32-52, 62-82: journal lines with a number past its range.
//  4. 53-89, 83-119: journal lines with a number that is not written as a decimal.
//  5. 90-110, 120-140: journal lines with another letter, or in another case.
//  6. 111-139, 141-169: journal lines with other bytes between or around the fields.
//  7. 140-163, 170-193: journal lines with a key too many, a key missing, or the keys in another order.
//  8. 164-174, 194-204: lines with nothing of the form, the empty line first.
//  9. 175-194, 205-224: settings inside their limits, at each end.
// 10. 195-217, 225-247: settings of the form, one of them outside its limits; the last line has 122 bytes.
// 11. 218-234, 248-264: settings with a number past its width.
// 12. 235-284, 265-314: settings not of the form.
// 13. 285-318, 315-348: settings with any number of displays: inside the limits, outside, past the width, not of the form.
// 14. 319, 349: a journal line that the end of the input cuts off before its 0A.
// 15. the texts of `judge_other_texts`, 350-359.
#![tactic(auto)]

ghost use Rattle.std.specs.Prelude.{◌≤◌, length};

use answer::Refusal;
use journal::Call;
use std::io::Read;

// Document 01's number of what the settings reader answers.
fn settings_answer(text: &[u8]) -> u32 {
    match settings::read_settings(text) {
        Ok(_) => 0,
        Err(refusal) => refusal.number(),
    }
}

fn print_answers(rt: HostRuntime, settings: u32, journal: u32) {
    let _ = println!(rt; "settings={settings} journal={journal}");
}

// The first n bytes of an area, or a word that it has fewer.
fn print_text(rt: HostRuntime, area: &[u8], n: usize) {
    if n <= area.len() {
        let _ = rt.write_all(&area[0..n]);
    } else {
        let _ = println!(rt; "past the area");
    }
}

// The line that the writer makes of a call, or the number of its refusal.
fn print_call(rt: HostRuntime, call: Call) {
    let mut area = [0u8; journal_text::LONGEST_JOURNAL_LINE];
    match journal_text::write_call(call, &mut area) {
        Ok(n) => print_text(rt, &area, n),
        Err(refusal) => {
            let number = refusal.number();
            let _ = println!(rt; "{number}");
        }
    }
}

// What the readers answer on one text.
fn judge(rt: HostRuntime, text: &[u8]) {
    let settings = settings_answer(text);
    match journal::read_call(text) {
        Some(call) => {
            print_answers(rt, settings, 0);
            print_call(rt, call);
        }
        None => print_answers(rt, settings, Refusal::Malformed.number()),
    }
}

fn judge_lines(rt: HostRuntime, text: &[u8]) {
    let mut rest = text;
    while !rest.is_empty() {
        let line = fields::next_line(rest);
        judge(rt, line);
        rest = &rest[line.len()..];
    }
}

// Texts that are no line of an input: the empty one, and lines that lack their 0A, end in another byte or have bytes behind the 0A.
fn judge_other_texts(rt: HostRuntime) {
    judge(rt, b"");
    judge(
        rt,
        b"lines=2 bucket=100 window=1 hold=50 low=-1000 high=1000 displays=1",
    );
    judge(
        rt,
        b"lines=2 bucket=100 window=1 hold=50 low=-1000 high=1000 displays=1\0",
    );
    judge(
        rt,
        b"lines=2 bucket=100 window=1 hold=50 low=-1000 high=1000 displays=1\n\n",
    );
    judge(
        rt,
        b"lines=9 bucket=100 window=1 hold=50 low=-1000 high=1000 displays=1\nlines=9",
    );
    judge(rt, b"now=0 line=1 kind=S id=1 time=10 meter=3 value=7");
    judge(rt, b"now=0 line=1 kind=S id=1 time=10 meter=3 value=7\r");
    judge(rt, b"now=0 line=1 kind=S id=1 time=10 meter=3 value=7\0");
    judge(rt, b"now=0 line=1 kind=S id=1 time=10 meter=3 value=7\n\n");
    judge(
        rt,
        b"now=62 line=0 kind=P id=0 time=0 meter=0 value=0\nnow=62 line=0 kind=P id=0 time=0 meter=0 value=0\n",
    );
}

// Reads until this room is full or nothing more comes; answers how many bytes came.
fn read_full(rt: HostRuntime, room: &mut [u8]) -> usize
    ensures { result ≤ length room.new }
{
    let mut stdin = rt.stdin();
    let mut done = 0;
    while done < room.len() {
        match stdin.read(&mut room[done..]) {
            Ok(0) | Err(_) => break,
            Ok(got) => done += got,
        }
    }
    done
}

fn main(rt: HostRuntime) {
    let mut space = [0u8; 65536];
    let n = read_full(rt, &mut space);
    judge_lines(rt, &space[..n]);
    judge_other_texts(rt);
}
