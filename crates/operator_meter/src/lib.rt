// A meter: count, sum and last value; its bounds, and the values that count.
#![tactic(auto)]

ghost use Rattle.std.specs.Prelude.{◌≡◌};
ghost use Rattle.operator_meter.specs.Values.{is_counted};

use settings::Settings;

// The largest count of a meter.
pub const COUNT_LIMIT: u32 = 32_768;

#[derive(Clone, Copy)]
pub struct Meter {
    pub sum: i64,
    pub count: u32,
    pub last: i32,
}

// A value that the operator does not drop.
#[tactic(auto, unfolding(crate::specs::Values::is_counted))]
pub fn is_counted(s: Settings, value: i32) -> bool
    ensures { result ≡ is_counted s value }
{
    (s.low <= value) & (value <= s.high)
}
