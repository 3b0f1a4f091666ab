// Rows as they are held, benches and results, compared bit by bit; every NaN is one.
// Stands on `alike`, which has the definitions; called by `damage`.
#![tactic(auto)]

mod arrays;
mod benches;
mod results;

pub use arrays::{SameBits, are_same};
pub use benches::same_benches;
pub use results::same_results;
