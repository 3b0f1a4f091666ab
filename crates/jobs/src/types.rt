// A job as it is asked for, as it is kept, and as a row holds it. Settings have the names of dls.rs and global.rs.
use merit::MeritFunction;
use optics::{OpticalPrescription, OpticalSurface};
use variables::VariableSet;

// Of a setting that is left out the default of the Rust's config is kept in its place.
#[derive(Clone, Copy)]
pub struct DlsRequest {
    pub max_iterations: Option<u64>,
    pub initial_damping: Option<f64>,
    pub relative_merit_tolerance: Option<f64>,
    pub gradient_tolerance: Option<f64>,
    pub finite_difference_relative_step: Option<f64>,
}

#[derive(Clone, Copy)]
pub struct MultiStartRequest {
    pub local_dls_config: DlsRequest,
    pub num_trials: Option<u64>,
    pub seed: Option<u64>,
}

#[derive(Clone, Copy)]
pub struct SimulatedAnnealingRequest {
    pub initial_temperature: Option<f64>,
    pub cooling_rate: Option<f64>,
    pub steps_per_temperature: Option<u64>,
    pub max_cooling_cycles: Option<u64>,
    pub seed: Option<u64>,
}

// "A job is of one kind and gives that kind's settings alone."
#[derive(Clone, Copy)]
pub enum MethodRequest {
    Damped(DlsRequest),
    MultiStart(MultiStartRequest),
    Annealing(SimulatedAnnealingRequest),
}

// A job as it is asked for. What stands past the counts is not looked at.
#[derive(Clone, Copy)]
pub struct JobRequest {
    pub prescription: OpticalPrescription,
    pub variables: VariableSet,
    pub merit_function: MeritFunction,
    pub method: MethodRequest,
}

#[derive(Clone, Copy)]
pub struct DlsConfig {
    pub max_iterations: u64,
    pub initial_damping: f64,
    pub relative_merit_tolerance: f64,
    pub gradient_tolerance: f64,
    pub finite_difference_relative_step: f64,
}

#[derive(Clone, Copy)]
pub struct MultiStartConfig {
    pub local_dls_config: DlsConfig,
    pub num_trials: u64,
    pub seed: u64,
}

#[derive(Clone, Copy)]
pub struct SimulatedAnnealingConfig {
    pub initial_temperature: f64,
    pub cooling_rate: f64,
    pub steps_per_temperature: u64,
    pub max_cooling_cycles: u64,
    pub seed: u64,
}

#[derive(Clone, Copy)]
pub enum Method {
    Damped(DlsConfig),
    MultiStart(MultiStartConfig),
    Annealing(SimulatedAnnealingConfig),
}

// A job as it is kept: defaults filled in, every unused entry zero.
#[derive(Clone, Copy)]
pub struct Job {
    pub prescription: OpticalPrescription,
    pub variables: VariableSet,
    pub merit_function: MeritFunction,
    pub method: Method,
}

// The same in numbers alone, as a row holds it; the row's kind says which settings are used. Callers in C read and write these
// records, so kinds, marks and signs are numbers here, and counts stand beside arrays.
// `follows` is 0 for no follower, 1 for plus, 2 for minus.
#[repr(C)]
#[derive(Clone, Copy)]
pub struct VariableRecord {
    pub kind: u64,
    pub surface_index: u64,
    pub enabled: u64,
    pub min_value: f64,
    pub max_value: f64,
    pub step_size: f64,
    pub follows: u64,
    pub follower: u64,
}

#[repr(C)]
#[derive(Clone, Copy)]
pub struct OperandRecord {
    pub kind: u64,
    pub at: u64,
    pub limit_mm: f64,
    pub target: f64,
    pub weight: f64,
}

#[repr(C)]
#[derive(Clone, Copy)]
pub struct SettingsRecord {
    pub max_iterations: u64,
    pub initial_damping: f64,
    pub relative_merit_tolerance: f64,
    pub gradient_tolerance: f64,
    pub finite_difference_relative_step: f64,
    pub num_trials: u64,
    pub initial_temperature: f64,
    pub cooling_rate: f64,
    pub steps_per_temperature: u64,
    pub max_cooling_cycles: u64,
    pub seed: u64,
}

#[repr(C)]
#[derive(Clone, Copy)]
pub struct JobRecord {
    pub surfaces: [OpticalSurface; 16],
    pub indices: [f64; 64],
    pub variables: [VariableRecord; 8],
    pub operands: [OperandRecord; 12],
    pub surface_count: u64,
    pub slot_count: u64,
    pub variable_count: u64,
    pub operand_count: u64,
    pub entrance_pupil_diameter_mm: f64,
    pub settings: SettingsRecord,
}
