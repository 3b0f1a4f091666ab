// What the answers to lines have in common, put in the output piece by piece; oracle/README.md has the formats.
// Stands on `runs` and `streams`; called by `lensanswers` and the programs.
#![tactic(auto)]

mod anywhere;
mod digest;
mod entries;
mod heads;
mod lines;
mod own;
mod pieces;
mod result;

pub use anywhere::{Entry, put_all};
pub use digest::{START, with_float, with_surfaces};
pub use entries::{ConsoleEntry, put_all_there};
pub use heads::{put_digest, put_head, put_kept, put_refused};
pub use lines::{ProvedProgram, answer_all_proved};
pub use own::{Program, answer_all};
pub use pieces::{put_cut, put_number, put_row, put_unknown};
pub use result::{put_lens, put_outcome};
