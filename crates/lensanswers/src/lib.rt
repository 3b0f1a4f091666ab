// What the answers to lines say of a lens by itself: evaluated, traced, and traced within limits; oracle/README.md has the formats.
// Stands on `merit`, `intervals` and `answers`; called by `replay`.
#![tactic(auto)]

mod evaluation;
mod limits;
mod trace;

pub use evaluation::put_evaluation;
pub use limits::put_limits;
pub use trace::{put_failed, put_paraxial, put_traced};
