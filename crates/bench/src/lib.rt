// The bench: four places whose jobs take turns; admit, turn, fetch, release, listing and dealings (added by document 01 and request 8).
// Stands on `held`. The type of a bench, and definitions: the code that meets them is in `rows`, `finished` and `benchcalls`.

#![tactic(auto)]

mod types;

pub use types::{Bench, Dealt, Finished};
