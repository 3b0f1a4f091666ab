// The words and numbers of a line, and a reader that takes them one after the other.
// Stands on `lists`; called by `streams`, `joblines`, `answers`, `alike` and programs, by no call of the bench.
#![tactic(auto)]

pub mod fields;
pub mod numbers;
pub mod reader;
pub mod words;
