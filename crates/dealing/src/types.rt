// Where a dealing stands.

// The place to try and the place to go next; how many places in a row had no job to serve; how many turns were dealt and how
// many are at most.
#[derive(Clone, Copy)]
pub struct Round {
    pub at: usize,
    pub next: usize,
    pub missed: u32,
    pub dealt: u32,
    pub limit: u32,
}
