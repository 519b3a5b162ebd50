// The send-back store: stable results that some display has not acknowledged.
// A plain slice: a host may lend one that is too short, which is refusal 3, or a longer one, whose bytes behind the places stay.
#![tactic(auto)]

ghost use Rattle.std.specs.Prelude.{◌≡◌, ◌+◌, ◌-◌, ◌*◌, ◌%◌, ◌^◌, ◌≤◌, ◌<◌, [], length, get_or, take, drop};
ghost use Rattle.area.specs.Laid.{laid, in_front};
ghost use Rattle.record.specs.Sizes.{record_bytes};
ghost use Rattle.record.specs.Layout.{bytes_of, all_bytes};
ghost use Rattle.record.specs.Fields.{fields_of};
ghost use Rattle.retransmission.specs.Sizes.{held_results, held_bytes};
ghost use Rattle.retransmission.specs.Places.{pieces, places_of, with_places, held_over};
ghost use Rattle.retransmission.specs.Places.{held_behind, given_up, place_of, place_ok, places_ok};

use record::RECORD_BYTES;

// Results that the store has places for.
pub const HELD_RESULTS: u64 = 512;

// Results that one fetch gives at most.
pub const FETCH_LIMIT: u64 = 64;

// Where the place of the result after number n begins.
fn place_after(n: u64) -> usize
    ensures { result ≡ n % held_results * record_bytes }
{
    (n % HELD_RESULTS) as usize * RECORD_BYTES
}

// Zeroes the places of the results above `from` and up to `to`.
pub fn give_up(sent: &mut [u8], from: u64, to: u64)
    requires { held_bytes ≤ length sent.old }
    ensures { let before = sent.old in
        sent.new ≡ with_places before (given_up (places_of before) from (to - from)) }
{
    for n in from..to {
        let at = place_after(n);
        sent[at..at + RECORD_BYTES].fill(0);
    }
}

// Copies the area's first n records, the results after number `newest`, to their places.
pub fn hold(sent: &mut [u8], newest: u64, area: &[u8], n: usize)
    requires { (held_bytes ≤ length sent.old) × (n * record_bytes ≤ length area.now) × (newest + n < 2 ^ 64) }
    ensures { let before = sent.old in
        sent.new ≡ with_places before (held_over (places_of before) newest (pieces n area.now)) }
{
    for i in 0..n {
        let from = i * RECORD_BYTES;
        let to = place_after(newest + i as u64);
        sent[to..to + RECORD_BYTES].copy_from_slice(&area[from..from + RECORD_BYTES]);
    }
}

// Whether the place of the result after number n has a stable result's kind and its own id.
fn is_held(sent: &[u8], n: u64) -> bool
    requires { (held_bytes ≤ length sent.now) × (n + 1 < 2 ^ 64) }
    ensures { result ≡ place_ok (n + 1) (get_or (places_of sent.now) (place_of (n + 1)) []) }
{
    let at = place_after(n);
    record::is_stable(sent[at]) && u64::from(endian::get::<u32>(sent, at + 4)) == n + 1
}

// Whether the places of the results above `least` and up to `newest` are so.
pub fn are_held(sent: &[u8], least: u64, newest: u64) -> bool
    requires { (held_bytes ≤ length sent.now) × (least ≤ newest) × (newest ≤ least + held_results) }
    ensures { result ≡ places_ok (places_of sent.now) least (newest - least) }
{
    for n in least..newest {
        if !is_held(sent, n) {
            return false;
        }
    }
    true
}

// Lays the record that stands from `from` on over an area from `to` on: a record's bytes, whatever the two after its meter are.
fn lay_record(sent: &[u8], from: usize, area: &mut [u8], to: usize)
    requires { (from + record_bytes ≤ length sent.now) × (to + record_bytes ≤ length area.old) }
    ensures { let place = take record_bytes (drop from sent.now) in
        area.new ≡ laid area.old to (bytes_of (fields_of place)) }
{
    let held = record::fields_of(&sent[from..from + RECORD_BYTES]);
    record::put_record(&mut area[to..], held);
}

// Lays the records that stand at the places of the results after number `from`, n of them, from the area's first byte on.
pub fn copy_out(sent: &[u8], from: u64, n: usize, area: &mut [u8])
    requires { (held_bytes ≤ length sent.now) × (n * record_bytes ≤ length area.old) × (from + n < 2 ^ 64) }
    ensures { area.new ≡ in_front (all_bytes (held_behind (places_of sent.now) from n)) area.old }
{
    for i in 0..n {
        lay_record(sent, place_after(from + i as u64), area, i * RECORD_BYTES);
    }
}
