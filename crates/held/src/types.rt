// A row as the bench holds it: arrays of numbers and nothing else, in four parts that a call lends whole. `specs/RowFrom.antt` reads it as a row.
ghost use Rattle.std.specs.Prelude.{◌≤◌, length};

// The job of it: nothing writes it after admission.
#[repr(C)]
#[derive(Clone, Copy)]
pub struct HeldJob {
    pub counts: [u64; 73],
    pub numbers: [f64; 195],
}

// A held job as it is lent wherever the row's code needs it: its two arrays, in a row or anywhere else. What stands past 195 numbers is not looked at.
#[derive(Clone, Copy)]
pub struct LentJob<'a> {
    pub counts: &'a [u64; 73],
    pub numbers: &'a [f64],
    pub ghost long: { 195 ≤ length numbers.now },
}

// What tells where the row's run is: the words and scalars of its kind, turns, phase and heads. `places.rt` says where an entry stands.
#[repr(C)]
#[derive(Clone, Copy)]
pub struct HeldHead {
    pub words: [u64; 13],
    pub scalars: [f64; 7],
}

// The arrays of the damped run. Surfaces are laid flat, four numbers each.
#[repr(C)]
#[derive(Clone, Copy)]
pub struct HeldRun {
    pub surfaces: [f64; 64],
    pub jacobian: [f64; 96],
    pub values: [f64; 12],
    pub residuals: [f64; 12],
    pub plus_residuals: [f64; 12],
    pub params: [f64; 8],
    pub candidate: [f64; 8],
}

// Those of the best result.
#[repr(C)]
#[derive(Clone, Copy)]
pub struct HeldBest {
    pub surfaces: [f64; 64],
    pub values: [f64; 12],
    pub residuals: [f64; 12],
}

// The parts lie one after the other, as C has them.
#[repr(C)]
#[derive(Clone, Copy)]
pub struct HeldRow {
    pub head: HeldHead,
    pub job: HeldJob,
    pub run: HeldRun,
    pub best: HeldBest,
}

// The numbers of a damped run that go by value; its arrays are lent.
#[repr(C)]
#[derive(Clone, Copy, Default)]
pub struct Head {
    pub total_merit: f64,
    pub initial_merit: f64,
    pub damping: f64,
    // One of `phases`, or any other number that a row may hold.
    pub phase: u64,
    pub iteration: u64,
    pub column: u64,
    pub attempt: u64,
    pub converged: u64,
}

// Those of the best result.
#[repr(C)]
#[derive(Clone, Copy, Default)]
pub struct BestHead {
    pub initial_merit: f64,
    pub final_merit: f64,
    pub iterations: u64,
    pub converged: u64,
}

// Those of a run's state.
#[repr(C)]
#[derive(Clone, Copy, Default)]
pub struct RowHead {
    pub damped: Head,
    pub best: BestHead,
    pub generator: u64,
    pub trial: u64,
    pub cycle: u64,
    pub step: u64,
    pub temperature: f64,
    pub current_merit: f64,
}
