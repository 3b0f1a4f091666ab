// The code of `intervals`: the trace worked with intervals, by value and lent.
// Stands on `meritcalls`, whose refusals of a trace it takes over, and on `intervals`, which has the definitions; called by `exports` and `replay`.
#![tactic(auto)]

mod calls;
mod ends;
mod surfaces;

pub use calls::{limits_traced, trace_limits};
