// What a dealing must answer on a bench that holds a changed row, and what it must leave (request 8).
use crate::verdict;
use bench::Bench;
use refusals::Refusal;

// Damage: 12, with no turn too, and nothing is changed.
pub(crate) fn refuses(bench: &Bench) -> bool {
    answers(bench, 0, Err(Refusal::Damaged), bench)
        && answers(bench, 5, Err(Refusal::Damaged), bench)
}

// No job is left: none is dealt, and nothing is changed.
pub(crate) fn deals_none(bench: &Bench) -> bool {
    answers(bench, 5, Ok(0), bench)
}

// A place to go next that is none gives 12.
pub(crate) fn refuses_past(bench: &Bench) -> bool {
    [4, 5, usize::MAX]
        .iter()
        .all(|next| refuses(&with_next(bench, *next)))
}

// The place, where a turn is taken, is served.
pub(crate) fn serves(bench: &Bench, place: usize) -> bool {
    let mut left = *bench;
    benchcalls::turn(&mut left, place, &mut [0.5; 256]);
    left.next_place = (place % 4 + 1) % 4;
    answers(bench, 1, Ok(1), &left)
}

fn with_next(bench: &Bench, next: usize) -> Bench {
    Bench {
        next_place: next,
        ..*bench
    }
}

// Whether a dealing of so many turns deals so many, or is refused so, and leaves that bench, with scratch as its turns leave it.
fn answers(bench: &Bench, turns: u16, wanted: Result<u32, Refusal>, after: &Bench) -> bool {
    let (dealt, number) = match wanted {
        Ok(dealt) => (dealt, 0),
        Err(refusal) => (0, refusal.number()),
    };
    let mut scratch = [0.5; 256];
    let mut left = *bench;
    let answer = benchcalls::deal(&mut left, turns, &mut scratch);
    same::same_benches(&left, after)
        && verdict::is_scratch(&scratch, dealt > 0)
        && answer.dealt == dealt
        && answer.number == number
}
