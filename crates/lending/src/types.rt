use merit::{MeritEvaluation, Traced};
use optics::ParaxialRay;
use refusals::Refusal;

// An evaluation that was lent, and what the call that fills it answered.
#[derive(Clone, Copy)]
pub struct Evaluated {
    pub evaluation: MeritEvaluation,
    pub answer: Result<(), Refusal>,
}

// A row of records, and what the trace into it answered.
#[derive(Clone, Copy)]
pub struct TracedRow {
    pub rays: [ParaxialRay; 16],
    pub answer: Result<Traced, Refusal>,
}
