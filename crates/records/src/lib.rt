// Requests in numbers alone, for callers in C: what they ask for, and lists of calls that have them.
// Stands on `bench` and `kinds`; called by `benchcalls` (`admit_record`).
#![tactic(auto)]

mod requests;
mod types;

pub use requests::{is_request, request_of};
pub use types::RequestRecord;
