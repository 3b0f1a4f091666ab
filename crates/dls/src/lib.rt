// The damped run of a row, lent as one, from one merit to the next (out of dls.rs).
// Stands on `heldmerit` and `normal`; called by `turns`, by `multistart` for a trial's run and by `annealing` for the polish.
#![tactic(auto)]

mod accepting;
mod attempts;
mod columns;
mod damped;
mod states;

pub use damped::{advance_damped, pending_damped};
pub use states::{at_first, holding};
