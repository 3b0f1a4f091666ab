// The code of `merit`: operands, evaluations, refusal 5, and the two calls that stand alone, evaluate and trace.
// Stands on `merit`; called by `heldmerit` for runs, by `lending`, `exports` and `intervalcalls` for callers, by `jobs` and `helddamage` (refusal 5).
#![tactic(auto)]

mod calls;
mod checks;
mod evaluation;
mod operands;

pub use calls::{evaluate, trace, trace_refusal, zero_evaluation};
pub use checks::{operand_taken, operands_taken};
pub use evaluation::{counted_total, difference_of, root_of};
pub use operands::value_of;
