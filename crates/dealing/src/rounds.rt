// A dealing from one place to the next, going round.
ghost use Rattle.std.specs.Prelude.{◌≡◌};
ghost use Rattle.refusals.specs.Numbers.{answered, numbered};
ghost use Rattle.bench.specs.Dealing.{place_after};
ghost use Rattle.dealing.specs.Rounds.{begun_of, passed_of, moved_of};

use crate::checks;
use crate::types::Round;
use bench::Bench;
use refusals::Refusal;

// 0 after 3.
fn place_after(place: usize) -> usize
    ensures { result ≡ place_after place }
{
    (place % 4 + 1) % 4
}

// After the turn at the place to try, which answered this number.
pub fn moved(round: Round, number: u32) -> Round
    ensures { result ≡ moved_of round number }
{
    if number > 0 || round.dealt >= round.limit {
        return round.passed();
    }
    let next = place_after(round.at);
    Round {
        at: next,
        next,
        missed: 0,
        dealt: round.dealt + 1,
        ..round
    }
}

impl Round {
    // Before the first place is tried. A dealing that is refused has no round.
    pub fn begun(bench: &Bench, turns: u16, room: usize) -> Result<Round, Refusal>
        ensures { numbered result ≡ begun_of bench.now turns room }
    {
        checks::deal_refusal(bench, room)?;
        Ok(Round {
            at: bench.next_place,
            next: bench.next_place,
            missed: 0,
            dealt: 0,
            limit: u32::from(turns),
        })
    }

    // After the turn at the place to try, which answered this.
    pub fn moved(self, answer: Result<(), Refusal>) -> Round
        ensures { result ≡ moved_of self (answered answer) }
    {
        moved(self, refusals::answered(answer))
    }

    // The place had no job to serve; after four such in a row no job is left.
    fn passed(self) -> Round
        ensures { result ≡ passed_of self }
    {
        let at = place_after(self.at);
        if self.missed > 2 {
            return Round {
                at,
                limit: self.dealt,
                ..self
            };
        }
        Round {
            at,
            missed: self.missed + 1,
            ..self
        }
    }
}
