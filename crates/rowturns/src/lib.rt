// A turn of one row, behind its refusals, and what the next one will work out (01's bench).
// Stands on `turns` and `rows`; called by `benchcalls`, and by `replay` for what comes next.
#![tactic(auto)]

mod pending;
mod scratch;
mod turn;
mod types;

pub use pending::pending_of;
pub use turn::turn_row;
pub use types::Pending;
