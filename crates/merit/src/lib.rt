// Operands, the merit of a lens, and the two calls that stand alone: evaluate and trace (out of operands.rs, merit.rs).
// Stands on `optics` and `edges`. Types and definitions alone: the code that meets them is in `meritcalls`.

#![tactic(auto)]

mod types;

pub use types::{MeritEvaluation, MeritFunction, MeritOperand, OperandType, Traced, WeightRoot};
