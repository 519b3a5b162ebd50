// Reads each of these texts as a command and prints what it is read as: both forms at their ends, and texts that are neither.
#![tactic(auto)]

use commands::Command;

fn show(rt: HostRuntime, word: &str, display: u32, id: u64) {
    let _ = println!(rt; "{word} {display} {id}");
}

fn judge(rt: HostRuntime, text: &[u8]) {
    match commands::read_command(text) {
        Some(Command::Acknowledge(display, id)) => show(rt, "ack", display, id),
        Some(Command::Fetch(display, id)) => show(rt, "fetch", display, id),
        None => {
            let _ = println!(rt; "none");
        }
    }
}

fn main(rt: HostRuntime) {
    judge(rt, b"ack display=1 id=5\n");
    judge(rt, b"fetch display=1 id=3\n");
    judge(rt, b"ack display=0 id=0\n");
    judge(rt, b"fetch display=4294967295 id=18446744073709551615\n");
    judge(rt, b"ack display=4294967295 id=18446744073709551610\n");
    judge(rt, b"ack display=1 id=18446744073709551609\n");
    judge(rt, b"ack display=1 id=4294967296\n");
    let _ = println!(rt; "-- none from here");
    judge(rt, b"ack display=4294967296 id=1\n");
    judge(rt, b"ack display=1 id=18446744073709551616\n");
    judge(rt, b"ack display=1 id=18446744073709551620\n");
    judge(rt, b"ack display=1 id=28446744073709551615\n");
    judge(rt, b"ack display=1 id=99999999999999999999\n");
    judge(rt, b"ack display=1 id=184467440737095516150\n");
    judge(rt, b"ack display=1 id=000000000000000000005\n");
    judge(rt, b"ack display=1 id=05\n");
    judge(rt, b"ack display=01 id=5\n");
    judge(rt, b"ack display=1 id=-5\n");
    judge(rt, b"ack display=1 id=+5\n");
    judge(rt, b"ack display=1 id=\n");
    judge(rt, b"ack display= id=5\n");
    judge(rt, b"ack display=1 id=5");
    judge(rt, b"ack display=1 id=5 \n");
    judge(rt, b"ack display=1 id=5\r\n");
    judge(rt, b"ack display=1 id=5\n\n");
    judge(rt, b"ack display=1 id=5\nx");
    judge(rt, b" ack display=1 id=5\n");
    judge(rt, b"ack  display=1 id=5\n");
    judge(rt, b"ack display=1  id=5\n");
    judge(rt, b"ACK display=1 id=5\n");
    judge(rt, b"ack id=5 display=1\n");
    judge(rt, b"acknowledge display=1 id=5\n");
    judge(rt, b"fetc display=1 id=5\n");
    judge(rt, b"\n");
    judge(rt, b"");
}
