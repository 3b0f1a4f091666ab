// What the kind of a run says: which numbers are kinds, in which phases it is at its end, and how many merits it has at most.
// Stands on `runs`; called by `helddamage`, `multistart` and `records`.
#![tactic(auto)]

mod bounds;
mod phases;

pub use bounds::{annealing_bound, at_least_one, damped_bound, multi_start_bound};
pub use phases::{annealing_over, damped_over, is_kind};
