// The calls on a bench that is lent (01): admit, turn, fetch, release, listing and dealing; and turns of one place in a loop.
// Stands on `rows`, `finished`, `dealing` and `records`; called by programs, and from C or Rust as it is exported.
#![tactic(auto)]

mod dealings;
mod empty;
mod lengths;
mod lent;
mod play;
mod types;

pub use dealings::deal;
pub use empty::empty_bench;
pub use lent::{admit, admit_record, fetch, finished_places, release, turn};
pub use play::play_turns;
pub use types::Played;
