// Functions on `f64`: E, which stands in for the exponential, and what Rust's methods do; of the square root the definition
// alone (`roots` has its code). Each contract is an equation with a definition in specs/; callers go by
// the laws in the crate `floatlaws`: `specs/CallerLaws.antt`, `Order.antt` and `Monotone.antt`.
// Stands on nothing; called wherever an `f64` is more than added, and by `exports`.
#![tactic(auto)]

mod basic;
mod exp;

pub use basic::{abs, clamp, is_finite, max, min};
pub use exp::exp_stand_in;
