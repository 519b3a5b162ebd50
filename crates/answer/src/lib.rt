// The numbers that calls answer with: document 01's 0 to 14, and document 02's 15 to 17 (W2).
#![tactic(auto)]

ghost use Rattle.std.specs.Prelude.{◌≡◌};
ghost use Rattle.answer.specs.Refusals.{number, answer_of};

// Why a call is refused, by the number that it answers with.
#[derive(Clone, Copy, Debug, PartialEq, Eq)]
pub enum Refusal {
    // Settings not of the form, or a number past its width.
    MalformedSettings = 1,
    // A setting outside its limits.
    OutsideLimits,
    // A store is short.
    ShortStore,
    // State or store out of shape.
    OutOfShape,
    // The area is short.
    ShortArea,
    // A text, or bytes, not of the form.
    Malformed,
    // `now` goes back.
    EarlierCall,
    // No such line, or a step that names one.
    WrongLine,
    // A field that the kind does not use is not 0.
    UnusedField,
    // No such meter.
    WrongMeter,
    // Not the next id, or one that cannot be undone to.
    WrongId,
    // Earlier than the line's boundary.
    TooEarly,
    // Tentative readings are kept.
    HeldBack,
    // The line's places are taken.
    FullLine,
    // More results than the send-back store has free places.
    LacksPlaces,
    // No such display.
    WrongDisplay,
    // Not an id that can be acknowledged or fetched from.
    WrongResultId,
}

impl Refusal {
    // The number that a refused call answers with.
    pub fn number(self) -> u32
        ensures { result ≡ number self }
    {
        self as u32
    }
}

// What a call answers, as a number: 0 where it is accepted.
pub fn number_of<T: Drop>(reply: Result<T, Refusal>) -> u32
    ensures { result ≡ answer_of reply }
{
    match reply {
        Ok(_) => 0,
        Err(refusal) => refusal.number(),
    }
}
