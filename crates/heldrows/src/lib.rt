// A row written as a held row.
// Stands on `held`, which has the definitions and the places; called by admission (`rows`).
#![tactic(auto)]

mod converted;
mod written;

pub use converted::held_of;
