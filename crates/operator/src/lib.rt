// The operator: its meters, with the numbering of results, worked in place.
#![tactic(auto)]

ghost use Rattle.std.specs.Prelude.{◌≡◌, ℕ, ◌+◌, ◌*◌, ◌<◌, ◌≤◌, ◌^◌, pos, length, get_or, take};
ghost use Rattle.area.specs.Laid.{in_front};
ghost use Rattle.clock.specs.Windows.{window_start};
ghost use Rattle.signed.specs.Range.{InRange};
ghost use Rattle.settings.specs.declared.Settings.{Settings as Limits};
ghost use Rattle.settings.specs.Limits.{max_lines};
ghost use Rattle.record.specs.Sizes.{record_bytes};
ghost use Rattle.record.specs.Layout.{all_bytes};
ghost use Rattle.store.specs.Lists.{Every};
ghost use Rattle.store.specs.Lent.{columns};
ghost use Rattle.operator_meter.specs.Values.{no_meter};
ghost use Rattle.operator.specs.Meters.{meter_count, clear};
ghost use Rattle.operator.specs.Parts.{marks_of};
ghost use Rattle.operator.specs.Results.{result_of};
ghost use Rattle.operator.specs.Work.{Worked, close};
ghost use Rattle.operator.specs.Loaded.{operator_of};
ghost use Rattle.operator.specs.Bucket.{Addable, BucketAdded};
ghost use Rattle.operator.specs.Pass.{passing, entered};

use clock::ReadingTime;
use operator_meter::Meter;
use record::Record;
use settings::Settings;
use store::Store;

// How many meters there are: as many as there are places for marks.
pub const METERS: usize = marks::PLACES;

// The same as the limit of a byte that names a meter.
pub const METER_LIMIT: u8 = METERS as u8;

// The meters in columns, one for each of a meter's numbers, since the bounds are tested column by column; `number` is the id of the newest
// result, 0 if there is none.
#[derive(Clone, Copy)]
pub struct Operator {
    pub sums: [i64; METERS],
    pub counts: [u32; METERS],
    pub lasts: [i32; METERS],
    pub number: u64,
}

// The result of a meter.
#[tactic(auto, unfolding(crate::specs::Results::result_of))]
fn result(kind: u8, start: ReadingTime, meter: usize, number: u32, m: Meter) -> Record
    requires { (meter < meter_count) × InRange m.sum m.count }
    ensures { result ≡ result_of kind start meter number m }
{
    Record {
        sum: m.sum,
        id: number,
        time: start,
        count: m.count,
        mean: signed::mean_of(m.sum, m.count),
        last: m.last,
        kind,
        meter: meter as u8,
    }
}

impl Operator {
    // The meter whose numbers stand at a place.
    fn meter(&self, i: usize) -> Meter
        requires { i < meter_count }
        ensures { result ≡ get_or (operator_of self.now).meters i no_meter }
    {
        Meter {
            sum: self.sums[i],
            count: self.counts[i],
            last: self.lasts[i],
        }
    }

    // Clears the meters; the numbering goes on.
    pub fn clear(&mut self)
        ensures { operator_of self.new ≡ clear (operator_of self.old) }
    {
        self.sums = [0i64; METERS];
        self.counts = [0u32; METERS];
        self.lasts = [0i32; METERS];
    }

    // Enters a value in a meter, of a reading of this time; `newest` has the time of each meter's newest reading that was met.
    fn enter(&mut self, newest: &mut [u32; METERS], meter: usize, time: u32, value: i32)
        requires { let count = get_or self.old.counts meter 0 in
            (meter < meter_count) × (count < 2 ^ 16) × InRange (get_or self.old.sums meter (pos 0)) count }
        ensures { passing self.new newest.new ≡ entered (passing self.old newest.old) time value meter }
    {
        self.sums[meter] += value as i64;
        self.counts[meter] += 1;
        if newest[meter] <= time {
            self.lasts[meter] = value;
            newest[meter] = time;
        }
    }

    // Adds bucket j's readings, in one pass over the shares, of which line i + 1 keeps kept[i]. A value outside low to high is dropped;
    // any other becomes its meter's last, unless the pass has met a newer reading of that meter. Behind a reading of another bucket the
    // pass goes on at the next one of bucket j, since such readings stand in runs.
    pub fn add(&mut self, s: Settings, kept: [u32; store::LINES], readings: &Store<'_>, j: u32)
        requires { (s.lines ≤ max_lines) ×
            Addable s (take s.lines kept) (columns readings.now) (operator_of self.old) }
        ensures { Every (λ m. InRange m.sum m.count) (operator_of self.new).meters ×
            BucketAdded s j (take s.lines kept) (columns readings.now) (operator_of self.old) (operator_of self.new) }
    {
        // of each meter the newest reading's time, as it stands in a column
        let mut newest = [0u32; METERS];
        for i in 0..s.lines as usize {
            let mut at = i * store::READINGS_PER_LINE;
            let end = at + kept[i] as usize;
            // A while: behind a reading of another bucket the place goes on by more than one.
            while at < end {
                let time = readings.times[at];
                let value = readings.values[at];
                let inside = store_places::is_in(s.bucket, j, ReadingTime(time));
                if inside & operator_meter::is_counted(s, value) {
                    self.enter(&mut newest, readings.meters[at] as usize, time, value);
                }
                at = if inside {
                    at + 1
                } else {
                    store_places::next_in(readings.times, at + 1, end, s.bucket, j)
                };
            }
        }
    }

    // A mark for each meter with a result.
    pub fn marks(&self) -> [u64; marks::WORDS]
        ensures { result ≡ marks_of (operator_of self.now).meters }
    {
        marks::marks_of(self.counts)
    }

    // How many results a window closed now would give.
    pub fn results_ahead(&self) -> u32
        ensures { (s : Limits) → (kind : ℕ) → (j : ℕ) → result ≡ length (close s kind j (operator_of self.now)).records }
    {
        marks::marked_count(self.marks())
    }

    // Closes the window that bucket j ends: lays its results down from the area's first byte on, numbers on behind them, clears the meters.
    // It goes by the marks of the meters with a result. How many results there are is the difference of the numberings.
    pub fn close(&mut self, s: Settings, kind: u8, j: u32, area: &mut [u8])
        requires { (meter_count * record_bytes ≤ length area.old) ×
            (window_start s.bucket s.window j < 2 ^ 32) × (self.old.number + meter_count < 2 ^ 32) ×
            Every (λ m. InRange m.sum m.count) (operator_of self.old).meters }
        ensures { let done : Worked = close s kind j (operator_of self.old) in
            (operator_of self.new ≡ done.operator) × (area.new ≡ in_front (all_bytes done.records) area.old) }
    {
        let start = ReadingTime(clock::window_start(s.bucket, s.window, j) as u32);
        let marked = self.marks();
        let mut number = self.number;
        let mut at = 0;
        let mut from = 0;
        // A while: the marks tell the next meter with a result, and those between are not looked at.
        while let Some(i) = marks::next_marked(marked, from) {
            number += 1;
            let r = result(kind, start, i, number as u32, self.meter(i));
            record::put_record(&mut area[at..], r);
            at += record::RECORD_BYTES;
            from = i + 1;
        }
        self.number = number;
        self.clear();
    }
}
