// Output records: 32 bytes each, little-endian.
#![tactic(auto)]

ghost use Rattle.std.specs.Prelude.{◌≡◌, [], ◌∷◌, ◌≤◌, length, take, drop};
ghost use Rattle.area.specs.Laid.{laid, in_front};
ghost use Rattle.record.specs.Sizes.{record_bytes};
ghost use Rattle.record.specs.Kinds.{is_stable, is_tentative, is_result, is_record};
ghost use Rattle.record.specs.Layout.{bytes_of};
ghost use Rattle.record.specs.Markers.{marker};
ghost use Rattle.record.specs.Fields.{fields_of};
ghost use Rattle.record.specs.Decoded.{is_well_formed, decoded, ExactRecord};

use clock::ReadingTime;
use signed::Signed;

// Bytes of one record.
pub const RECORD_BYTES: usize = 32;

// The kinds, by their letter's byte.
// `journal` has letters of its own: calls and records are two formats, and neither crate reads the other's.
pub const STABLE: u8 = b'S';

pub const TENTATIVE: u8 = b'T';

pub const UNDO: u8 = b'U';

pub const BOUNDARY: u8 = b'B';

pub const DONE: u8 = b'R';

// The fields of one record.
// The kind is a byte and no enum: `fields_of` here and `retransmission::copy_out` speak of whatever byte stands there.
#[derive(Clone, Copy, Debug, PartialEq, Eq)]
pub struct Record {
    pub sum: i64,
    pub id: u32,
    pub time: ReadingTime,
    pub count: u32,
    pub mean: i32,
    pub last: i32,
    pub kind: u8,
    pub meter: u8,
}

// Whether a kind is that of a stable result.
#[tactic(auto, unfolding(crate::specs::Kinds::is_stable))]
pub fn is_stable(kind: u8) -> bool
    ensures { result ≡ is_stable kind }
{
    kind == STABLE
}

// Whether a kind is that of a tentative result.
#[tactic(auto, unfolding(crate::specs::Kinds::is_tentative))]
pub fn is_tentative(kind: u8) -> bool
    ensures { result ≡ is_tentative kind }
{
    kind == TENTATIVE
}

// Whether a kind is that of a result.
#[tactic(auto, unfolding(crate::specs::Kinds::is_result))]
pub fn is_result(kind: u8) -> bool
    ensures { result ≡ is_result kind }
{
    is_stable(kind) || is_tentative(kind)
}

// Whether records have this kind.
#[tactic(auto, unfolding(crate::specs::Kinds::is_record))]
fn is_record(kind: u8) -> bool
    ensures { result ≡ is_record kind }
{
    is_result(kind) || matches!(kind, UNDO | BOUNDARY | DONE)
}

// The first four bytes: kind, meter and two zeros.
#[tactic(auto, unfolding(area::specs::Laid::in_front), using(area::proofs::Laid::laid_front))]
fn put_tag(out: &mut [u8], kind: u8, meter: u8)
    requires { 4 ≤ length out.old }
    ensures { out.new ≡ laid out.old 0 (kind ∷ meter ∷ 0 ∷ 0 ∷ []) }
{
    out[0..4].copy_from_slice(&[kind, meter, 0, 0]);
}

// The first twelve bytes: kind, meter, zeros, id and time.
#[tactic(auto, using(crate::proofs::Stores::head_laid_lem))]
fn put_head(out: &mut [u8], r: Record)
    requires { record_bytes ≤ length out.old }
    ensures { out.new ≡ laid out.old 0 (take 12 (bytes_of r)) }
{
    put_tag(out, r.kind, r.meter);
    endian::put(out, 4, r.id);
    endian::put(out, 8, r.time.0);
}

// The other twenty: count, sum, mean and last.
#[tactic(auto, using(crate::proofs::Stores::values))]
fn put_values(out: &mut [u8], r: Record)
    requires { record_bytes ≤ length out.old }
    ensures { out.new ≡ laid out.old 12 (drop 12 (bytes_of r)) }
{
    endian::put(out, 12, r.count);
    endian::put(out, 16, r.sum.to_word());
    endian::put(out, 24, r.mean.to_word());
    endian::put(out, 28, r.last.to_word());
}

// Lays a record over the first 32 bytes of the lent part of the output area, which starts behind the last record; the rest stays.
#[tactic(auto, using(crate::proofs::Stores::record_laid))]
pub fn put_record(out: &mut [u8], r: Record)
    requires { record_bytes ≤ length out.old }
    ensures { out.new ≡ in_front (bytes_of r) out.old }
{
    put_head(out, r);
    put_values(out, r);
}

// Whether bytes have a record's form: 32, of a kind that records have, with both zero bytes zero.
#[tactic(auto, unfolding(crate::specs::Decoded::is_well_formed))]
fn is_well_formed(bytes: &[u8]) -> bool
    ensures { result ≡ is_well_formed bytes.now }
{
    bytes.len() == RECORD_BYTES && is_record(bytes[0]) && bytes[2] == 0 && bytes[3] == 0
}

// The fields at their places.
#[tactic(auto, unfolding(crate::specs::Fields::fields_of, crate::specs::Fields::word_at))]
pub fn fields_of(bytes: &[u8]) -> Record
    requires { record_bytes ≤ length bytes.now }
    ensures { result ≡ fields_of bytes.now }
{
    Record {
        sum: i64::from_word(endian::get(bytes, 16)),
        id: endian::get(bytes, 4),
        time: ReadingTime(endian::get(bytes, 8)),
        count: endian::get(bytes, 12),
        mean: i32::from_word(endian::get(bytes, 24)),
        last: i32::from_word(endian::get(bytes, 28)),
        kind: bytes[0],
        meter: bytes[1],
    }
}

// The record that these bytes are; none where they are no record, which is refusal 6.
#[tactic(auto, unfolding(crate::specs::Decoded::decoded), using(crate::proofs::Decoding::decoding))]
pub fn decode(bytes: &[u8]) -> Option<Record>
    ensures value { result ≡ decoded bytes.now }
    ensures exact_record { ExactRecord bytes.now result }
{
    is_well_formed(bytes).then(|| fields_of(bytes))
}

// A record without a result.
#[tactic(auto, unfolding(crate::specs::Markers::marker))]
pub fn marker(kind: u8, id: u32, time: ReadingTime) -> Record
    ensures { result ≡ marker kind id time }
{
    Record {
        sum: 0,
        id,
        time,
        count: 0,
        mean: 0,
        last: 0,
        kind,
        meter: 0,
    }
}
