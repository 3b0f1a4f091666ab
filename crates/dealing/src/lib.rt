// Turns dealt round the places (request 8): what refuses a dealing, where it begins, and how each turn moves it on.
// Stands on `rows`; called by `benchcalls`, which takes the turns.
#![tactic(auto)]

mod checks;
mod rounds;
mod types;

pub use rounds::moved;
pub use types::Round;
