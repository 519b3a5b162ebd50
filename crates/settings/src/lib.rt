// The settings line: what the installer sets.
#![tactic(auto)]

ghost use Rattle.std.specs.Prelude.{◌≡◌, ◌≤◌, length};
ghost use Rattle.decimal.specs.Spelled.{Ended};
ghost use Rattle.settings.specs.Limits.{within_limits};
ghost use Rattle.settings.specs.SettingsLine.{ExactSettings};
ghost use Rattle.settings.specs.ReadLine.{settings_at, settings_of};

use answer::Refusal;

// The limits of the settings.
pub const MAX_LINES: u32 = 8;

pub const MIN_BUCKET: u32 = 100;

pub const MAX_BUCKET: u32 = 36_000;

pub const MAX_WINDOW: u32 = 16;

pub const MAX_HOLD: u32 = 864_000;

pub const MAX_DISPLAYS: u32 = 4;

// The widest unsigned number that a setting may spell.
const WIDTH: u32 = u32::MAX;

// The settings, each as wide as its text may spell it.
#[derive(Clone, Copy, Debug, PartialEq, Eq)]
pub struct Settings {
    pub lines: u32,
    pub bucket: u32,
    pub window: u32,
    pub hold: u32,
    pub low: i32,
    pub high: i32,
    pub displays: u32,
}

// Whether every setting is inside its limits.
#[tactic(auto, unfolding(crate::specs::Limits::within_limits))]
pub fn within_limits(s: Settings) -> bool
    ensures { result ≡ within_limits s }
{
    (1..=MAX_LINES).contains(&s.lines)
        && (MIN_BUCKET..=MAX_BUCKET).contains(&s.bucket)
        && (1..=MAX_WINDOW).contains(&s.window)
        && s.hold <= MAX_HOLD
        && s.low <= s.high
        && (1..=MAX_DISPLAYS).contains(&s.displays)
}

// The settings line that the text has from `at` on, with the place behind it.
#[tactic(auto, unfolding(crate::specs::ReadLine::settings_at, fields::specs::Field::with_field))]
fn settings_at(s: &[u8], at: usize) -> Option<(Settings, usize)>
    requires { (at ≤ length s.now) × Ended s.now }
    ensures { result ≡ settings_at s.now at }
{
    let (lines, at) = fields::number_field(s, at, b"lines=", WIDTH)?;
    let (bucket, at) = fields::number_field(s, at, b" bucket=", WIDTH)?;
    let (window, at) = fields::number_field(s, at, b" window=", WIDTH)?;
    let (hold, at) = fields::number_field(s, at, b" hold=", WIDTH)?;
    let (low, at) = fields::integer_field(s, at, b" low=")?;
    let (high, at) = fields::integer_field(s, at, b" high=")?;
    let (displays, at) = fields::number_field(s, at, b" displays=", WIDTH)?;
    if fields::ends_line(s, at) {
        let settings = Settings {
            lines,
            bucket,
            window,
            hold,
            low,
            high,
            displays,
        };
        Some((settings, at + 1))
    } else {
        None
    }
}

// What a settings text is read as: its settings, or the refusal `MalformedSettings` or `OutsideLimits`.
#[tactic(auto, unfolding(crate::specs::ReadLine::settings_of, crate::specs::ReadLine::judged, crate::specs::SettingsLine::limited))]
pub fn read_settings(text: &[u8]) -> Result<Settings, Refusal>
    ensures value { result ≡ settings_of text.now }
    ensures exact_settings { ExactSettings text.now result }
{
    if !fields::is_line(text) {
        return Err(Refusal::MalformedSettings);
    }
    let (settings, end) = settings_at(text, 0).ok_or(Refusal::MalformedSettings)?;
    if end != text.len() {
        return Err(Refusal::MalformedSettings);
    }
    if within_limits(settings) {
        Ok(settings)
    } else {
        Err(Refusal::OutsideLimits)
    }
}
