// The evaluation under a held job: the values of all operands, and out of them the merit and the residuals, each where it is needed.
// Stands on `held` and `meritcalls`; called by `dls`, `turns` and `rows`.
#![tactic(auto)]

mod evaluation;

pub use evaluation::{merit_of, residuals_of, values_of};
