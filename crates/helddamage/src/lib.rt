// Refusal 12 on a held row: its job, its surfaces, its phase, its counters and its turns.
// Stands on `held` and `kinds`; called by `rows`.
#![tactic(auto)]

mod checks;
mod damage;
mod limits;

pub use damage::is_damaged;
pub use limits::is_over;
