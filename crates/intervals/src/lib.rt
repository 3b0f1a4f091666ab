// Thicknesses known only within limits: definitions and laws of the trace worked with intervals (request 13), and the types.
// Stands on `merit`; `intervalcalls` has the code.

#![tactic(auto)]

mod types;

pub use types::{ArrivingLimits, Interval, PassedLimits, ThicknessLimits, TraceLimits};
