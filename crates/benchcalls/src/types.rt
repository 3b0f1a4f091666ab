// What a play answers.
use refusals::Refusal;

// How many turns of one place were taken, and why the one after them was refused, if it was.
#[derive(Clone, Copy)]
pub struct Played {
    pub taken: u64,
    pub answer: Result<(), Refusal>,
}
