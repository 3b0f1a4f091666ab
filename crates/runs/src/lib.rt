// Runs and rows: the three kinds of run, and a row that holds a run between two merits (out of dls.rs and global.rs).
// Stands on `jobs`, `normal` and `xorshift`. Types and definitions alone: the code that meets them is in `dls`, `multistart`, `annealing`, `turns` and `rows`.

#![tactic(auto)]

pub mod methods;
pub mod phases;
mod types;

pub use types::{DampedState, OptimizationResult, Row};
