// What an optimisation may change: variables, their values read and stored, and checks 4 and 17 (out of variables.rs).
// Stands on `optics`; called by `jobs` (refusals 4 and 17), and by `held`, which applies them.
#![tactic(auto)]

mod quantities;
mod sets;
mod taken;
mod types;

pub use quantities::{apply_clamp, no_surface, quantity, surface_index, with_value};
pub use sets::num_active;
pub use taken::{follower_taken, followers_taken, variable_taken, variables_taken};
pub use types::{Follower, VariableDef, VariableSet, VariableType};
