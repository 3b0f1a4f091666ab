// What a run leaves and what a row holds between two merits. Numbers only: any bytes are a value.
use jobs::JobRecord;
use merit::MeritEvaluation;
use optics::OpticalSurface;

// As in dls.rs: the best lens, its merit, and each operand's value and residual there; zero past the job's counts.
#[repr(C)]
#[derive(Clone, Copy)]
pub struct OptimizationResult {
    pub surfaces: [OpticalSurface; 16],
    pub values: [f64; 12],
    pub residuals: [f64; 12],
    pub initial_merit: f64,
    pub final_merit: f64,
    pub iterations: u64,
    pub converged: u64,
}

// A damped run between two merits: what `DlsOptimizer::optimize` holds in its locals, and where it stands in its loops.
// What the phase does not use is zero.
#[repr(C)]
#[derive(Clone, Copy)]
pub struct DampedState {
    pub surfaces: [OpticalSurface; 16],
    pub jacobian: [f64; 96],
    pub evaluation: MeritEvaluation,
    pub plus_residuals: [f64; 12],
    pub params: [f64; 8],
    pub candidate: [f64; 8],
    pub initial_merit: f64,
    pub damping: f64,
    pub phase: u64,
    pub iteration: u64,
    pub column: u64,
    pub attempt: u64,
    pub converged: u64,
}

// A row: the job as admitted, its working turns, and the run's state. In annealing's walk the damped part holds the
// current surfaces and params, and the trial's as the candidate; `best` is multi-start's best result, or the walk's best
// surfaces and merit with annealing's first merit.
#[repr(C)]
#[derive(Clone, Copy)]
pub struct Row {
    pub job: JobRecord,
    pub damped: DampedState,
    pub best: OptimizationResult,
    pub kind: u64,
    pub turns: u64,
    pub generator: u64,
    pub trial: u64,
    pub cycle: u64,
    pub step: u64,
    pub temperature: f64,
    pub current_merit: f64,
}
