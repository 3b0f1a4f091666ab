// The draws for a trial of multi-start and for a step of annealing (out of global.rs).
// Stands on `held` and `xorshift`; called by `multistart` and `annealing`.
#![tactic(auto)]

mod params;

pub use params::{Drawn, random_params, trial_params};
