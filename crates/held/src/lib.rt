// A row as the bench holds it: arrays of numbers. Where an entry stands, what a job's numbers are read as, and how values are applied there; how a row
// is written, and read as a whole, as definitions (`heldrows` has the code that writes one).
// Stands on `runs`; called by all that works on a row. It alone has offsets.
#![tactic(auto)]

mod entries;
mod flat;
mod head;
pub mod places;
mod sets;
mod types;
mod values;
mod varied;

pub use flat::{copy, stand};
pub use types::{BestHead, Head, HeldBest, HeldHead, HeldJob, HeldRow, HeldRun, LentJob, RowHead};
pub use values::{apply_values, clamp_values, extract_values, lay_applied};
pub use varied::{CountedJob, VariedJob};
