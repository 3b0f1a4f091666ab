// Requests: what they leave out is filled in; the job that they make, and why they are refused.
// Stands on `jobs`, which has the definitions; called by admission (`rows`) and, for the polish's settings, by `turns`.
#![tactic(auto)]

mod asked;
mod filled;

pub use asked::{job_from, refusal_of};
pub use filled::polish_settings;
