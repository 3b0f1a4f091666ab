// Where the input comes from, where the output goes, and where it is said what failed.
use std::io::{Stderr, Stdin, Stdout};

// The standard streams: `main` has them from the runtime, and passes them on.
#[derive(Clone, Copy)]
pub struct Console {
    pub input: Stdin,
    pub output: Stdout,
    pub errors: Stderr,
}
