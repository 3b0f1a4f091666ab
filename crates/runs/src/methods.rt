// The kinds of a job. They stay numbers, since a row may hold any.

pub const DAMPED: u64 = 1;

pub const MULTI_START: u64 = 2;

pub const ANNEALING: u64 = 3;
