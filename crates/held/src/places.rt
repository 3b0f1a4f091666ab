// Where an entry stands in the arrays of a held row. No other file of code has an offset.

// In `words`.
pub const KIND: usize = 0;

pub const TURNS: usize = 1;

pub const PHASE: usize = 2;

pub const ITERATION: usize = 3;

pub const COLUMN: usize = 4;

pub const ATTEMPT: usize = 5;

pub const CONVERGED: usize = 6;

pub const GENERATOR: usize = 7;

pub const TRIAL: usize = 8;

pub const CYCLE: usize = 9;

pub const STEP: usize = 10;

pub const BEST_ITERATIONS: usize = 11;

pub const BEST_CONVERGED: usize = 12;

// In `scalars`.
pub const INITIAL_MERIT: usize = 0;

pub const DAMPING: usize = 1;

pub const TEMPERATURE: usize = 2;

pub const CURRENT_MERIT: usize = 3;

pub const TOTAL_MERIT: usize = 4;

pub const BEST_INITIAL_MERIT: usize = 5;

pub const BEST_FINAL_MERIT: usize = 6;

// In `counts`; then five for each variable and two for each operand.
pub const SURFACE_COUNT: usize = 0;

pub const SLOT_COUNT: usize = 1;

pub const VARIABLE_COUNT: usize = 2;

pub const OPERAND_COUNT: usize = 3;

pub const MAX_ITERATIONS: usize = 4;

pub const NUM_TRIALS: usize = 5;

pub const STEPS_PER_TEMPERATURE: usize = 6;

pub const MAX_COOLING_CYCLES: usize = 7;

pub const SEED: usize = 8;

pub const VARIABLE_COUNTS: usize = 9;

pub const OPERAND_COUNTS: usize = 49;

// In `numbers`, after the surfaces; then three for each variable and three for each operand.
pub const INDICES: usize = 64;

pub const PUPIL: usize = 128;

pub const INITIAL_DAMPING: usize = 129;

pub const RELATIVE_MERIT_TOLERANCE: usize = 130;

pub const GRADIENT_TOLERANCE: usize = 131;

pub const RELATIVE_STEP: usize = 132;

pub const INITIAL_TEMPERATURE: usize = 133;

pub const COOLING_RATE: usize = 134;

pub const VARIABLE_NUMBERS: usize = 135;

pub const OPERAND_NUMBERS: usize = 159;
