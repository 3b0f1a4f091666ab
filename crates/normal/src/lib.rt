// The arithmetic of one damped iteration, bit for bit (out of dls.rs), with document 01's stand-ins for nalgebra: a column of the
// Jacobian, J^T J, J^T r and the norm, the damped system and its solution, the damping. Matrices are worked in lent scratch.
// Callers lend a slice of 128 numbers or more, and what lies behind the 128 stays. Within the crate scratch is the array of those 128, and
// p and m stand in types that bound them (`Unknowns`, `Jacobian`), so that no inner contract says how long or how many.
// Stands on `floats`; called by `dls`. It knows no job, no surface and no row.
#![tactic(auto)]

mod damping;
mod elimination;
mod jacobian;
mod layout;
mod products;
mod step;

pub use damping::Damping;
pub use elimination::solve;
pub use jacobian::{delta, denominator, jacobian_column, minus_value, plus_value};
pub use layout::{GRADIENT, PRODUCT, SCRATCH, STEP, place, system_place};
pub use products::normal_equations;
pub use step::attempt_step;
