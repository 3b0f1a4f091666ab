// The phases of a run. They stay numbers, since a row may hold any.

// Of a damped run: before the first merit, with a parameter moved up or down, before a candidate's merit, and at the end.
pub const FIRST: u64 = 0;

pub const PLUS: u64 = 1;

pub const MINUS: u64 = 2;

pub const CANDIDATE: u64 = 3;

pub const FINISHED: u64 = 4;

// Of annealing's walk, before its first merit and before a step's.
pub const WALK_FIRST: u64 = 5;

pub const WALK: u64 = 6;
