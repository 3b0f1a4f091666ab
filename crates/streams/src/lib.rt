// The input line by line, and the output, gathered in a buffer.
// Stands on `text` and the standard streams; called by programs and `answers`, by no call of the bench.
#![tactic(auto)]

pub mod console;
pub mod input;
mod moves;
pub mod output;
mod parts;
mod session;
