// Why a call is refused, and the number that stands for it where numbers alone are handed out: in C and on lines.
// Stands on nothing; returned by each call that can be refused.
#![tactic(auto)]

ghost use Rattle.std.specs.Prelude.{◌≡◌, cond, Ok, Err};
ghost use Rattle.refusals.specs.Numbers.{number_of, answered, Distinct};

// The causes, in the order of their numbers.
#[derive(Clone, Copy, PartialEq, Eq)]
pub enum Refusal {
    // A count outside its limits, or a slice not as long as the counts say.
    BadCount,
    NoSuchPlace,
    BadLens,
    BadVariable,
    // An absent slot, of a trace too.
    BadOperand,
    BadSetting,
    // None that is enabled.
    NoVariable,
    NoOperand,
    ShortScratch,
    // The place has a job.
    Taken,
    // The place has none.
    Empty,
    // The place's words are none that the calls leave.
    Damaged,
    // The run is at its end.
    Finished,
    Unfinished,
    BadFollower,
    // Limits of a trace: crossed, or an end that is not finite; or fewer than two surfaces.
    BadLimits,
}

impl Refusal {
    pub fn number(self) -> u32
        ensures number { result ≡ number_of self }
        ensures which { Distinct self }
    {
        match self {
            Refusal::BadCount => 1,
            Refusal::NoSuchPlace => 2,
            Refusal::BadLens => 3,
            Refusal::BadVariable => 4,
            Refusal::BadOperand => 5,
            Refusal::BadSetting => 6,
            Refusal::NoVariable => 7,
            Refusal::NoOperand => 8,
            Refusal::ShortScratch => 9,
            Refusal::Taken => 10,
            Refusal::Empty => 11,
            Refusal::Damaged => 12,
            Refusal::Finished => 13,
            Refusal::Unfinished => 14,
            Refusal::BadFollower => 17,
            Refusal::BadLimits => 19,
        }
    }

    // This refusal where the test fails: `Refusal::BadLens.unless(lens_taken(lens))?`.
    pub fn unless(self, holds: bool) -> Result<(), Refusal>
        ensures { result ≡ cond holds (Ok tt) (Err self) }
    {
        if holds { Ok(()) } else { Err(self) }
    }
}

impl From<Refusal> for u32 {
    ghost from_gives = { λ r n. n ≡ number_of r };

    fn from(refusal: Refusal) -> u32 {
        refusal.number()
    }
}

// The number that a call answers: 0 where it is done.
pub fn answered(done: Result<(), Refusal>) -> u32
    ensures { result ≡ answered done }
{
    match done {
        Ok(()) => 0,
        Err(refusal) => refusal.number(),
    }
}
