// The bench, and what its listing and a dealing answer. Numbers only: any bytes are a bench.
use held::HeldRow;

// "Four places, 0 to 3." A place is empty exactly when its row's kind is 0, all else in the row disregarded.
// The next dealing starts at `next_place`; no other call looks at it.
#[repr(C)]
#[derive(Clone, Copy)]
pub struct Bench {
    pub rows: [HeldRow; 4],
    pub next_place: usize,
}

// The places whose runs are at their end, fewest working turns first, then rising, and how many they are; 0 past the count.
#[repr(C)]
#[derive(Clone, Copy)]
pub struct Finished {
    pub places: [usize; 4],
    pub count: usize,
}

// How many turns a dealing dealt, and 01's number, 0 where it was done.
#[repr(C)]
#[derive(Clone, Copy)]
pub struct Dealt {
    pub dealt: u32,
    pub number: u32,
}
