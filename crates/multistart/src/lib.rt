// Multi-start's trials, over a row's lent run and best result, from merit to merit (out of global.rs).
// Stands on `dls`, `kinds` and `draws`; called by `turns`.
#![tactic(auto)]

mod merging;
mod trials;

pub use trials::advance_trials;
