// Job lines, read into the types of the library; oracle/README.md has their form. Counts are kept as they stand, also past the
// limits; of the entries, those that there is room for. What stands past the counts is what no call takes: an answer that looked
// there would show it.
// Stands on `jobs`, `intervals` and `text`; called by `replay`, `callplay` and `damage`.
#![tactic(auto)]

mod entries;
mod followers;
mod lens;
mod limits;
mod line;
mod operands;
mod request;
mod sets;
mod settings;

pub use limits::{LimitsRead, read_limits};
pub use line::{JobLine, read_job, read_kind};
pub use request::read_request;
