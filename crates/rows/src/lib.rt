// The calls on one row but for a turn: admission, fetch, release, listing; and why a turn is refused (01's bench).
// Stands on `helddamage`, `heldrows` and `bench`; called by `benchcalls`, `finished`, `dealing` and `rowturns`.
#![tactic(auto)]

mod began;
mod calls;
mod fetch;
mod numbers;
mod results;
mod zeros;

pub use calls::{admit_refusal, admit_row, release_row};
pub use fetch::{fetch_row, is_damaged, is_listed};
pub use numbers::{turn_refusal, turn_refusal_over};
pub use zeros::{zero_result, zero_row, zero_surfaces};
