// Annealing's walk, over a row's lent run and best result, from merit to merit (out of global.rs).
// Stands on `dls`, which has the polish's beginning, and `draws`; called by `turns`.
#![tactic(auto)]

mod cycles;
mod judging;
mod steps;
mod walk;

pub use walk::{advance_walk, advance_walk_first};
