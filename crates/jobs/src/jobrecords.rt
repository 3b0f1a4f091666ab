// A job in numbers alone, as a row holds it, and read back. A literal takes an array from a variable of its own: the borrow checker asks for that.
ghost use Rattle.std.specs.Prelude.{◌≡◌, ◌≤◌};
ghost use Rattle.jobs.specs.Records.{dls_settings, annealing_settings, settings_record, dls_config, multi_start_config, annealing_config};
ghost use Rattle.jobs.specs.Records.{method, record_of, job_of, known_kinds};

use crate::entries;
use crate::types::{
    DlsConfig, Job, JobRecord, Method, MultiStartConfig, OperandRecord, SettingsRecord,
    SimulatedAnnealingConfig, VariableRecord,
};
use merit::{MeritFunction, MeritOperand};
use optics::OpticalPrescription;
use variables::{VariableDef, VariableSet};

// A damped run's settings, with the trials and seed of a multi-start beside them.
fn dls_settings(c: DlsConfig, trials: u64, seed: u64) -> SettingsRecord
    ensures { result ≡ dls_settings c trials seed }
{
    SettingsRecord {
        max_iterations: c.max_iterations,
        initial_damping: c.initial_damping,
        relative_merit_tolerance: c.relative_merit_tolerance,
        gradient_tolerance: c.gradient_tolerance,
        finite_difference_relative_step: c.finite_difference_relative_step,
        num_trials: trials,
        initial_temperature: 0.0,
        cooling_rate: 0.0,
        steps_per_temperature: 0,
        max_cooling_cycles: 0,
        seed,
    }
}

fn annealing_settings(c: SimulatedAnnealingConfig) -> SettingsRecord
    ensures { result ≡ annealing_settings c }
{
    SettingsRecord {
        max_iterations: 0,
        initial_damping: 0.0,
        relative_merit_tolerance: 0.0,
        gradient_tolerance: 0.0,
        finite_difference_relative_step: 0.0,
        num_trials: 0,
        initial_temperature: c.initial_temperature,
        cooling_rate: c.cooling_rate,
        steps_per_temperature: c.steps_per_temperature,
        max_cooling_cycles: c.max_cooling_cycles,
        seed: c.seed,
    }
}

impl From<Method> for SettingsRecord {
    ghost from_gives = { λ m s. s ≡ settings_record m };

    fn from(m: Method) -> SettingsRecord {
        match m {
            Method::Damped(c) => dls_settings(c, 0, 0),
            Method::MultiStart(c) => dls_settings(c.local_dls_config, c.num_trials, c.seed),
            Method::Annealing(c) => annealing_settings(c),
        }
    }
}

impl From<SettingsRecord> for DlsConfig {
    ghost from_gives = { λ s c. c ≡ dls_config s };

    fn from(s: SettingsRecord) -> DlsConfig {
        DlsConfig {
            max_iterations: s.max_iterations,
            initial_damping: s.initial_damping,
            relative_merit_tolerance: s.relative_merit_tolerance,
            gradient_tolerance: s.gradient_tolerance,
            finite_difference_relative_step: s.finite_difference_relative_step,
        }
    }
}

impl From<SettingsRecord> for MultiStartConfig {
    ghost from_gives = { λ s c. c ≡ multi_start_config s };

    fn from(s: SettingsRecord) -> MultiStartConfig {
        MultiStartConfig {
            local_dls_config: s.into(),
            num_trials: s.num_trials,
            seed: s.seed,
        }
    }
}

impl From<SettingsRecord> for SimulatedAnnealingConfig {
    ghost from_gives = { λ s c. c ≡ annealing_config s };

    fn from(s: SettingsRecord) -> SimulatedAnnealingConfig {
        SimulatedAnnealingConfig {
            initial_temperature: s.initial_temperature,
            cooling_rate: s.cooling_rate,
            steps_per_temperature: s.steps_per_temperature,
            max_cooling_cycles: s.max_cooling_cycles,
            seed: s.seed,
        }
    }
}

#[tactic(auto, unfolding(crate::specs::Records::method))]
fn method_from(kind: u64, s: SettingsRecord) -> Method
    ensures { result ≡ method kind s }
{
    match kind {
        1 => Method::Damped(s.into()),
        2 => Method::MultiStart(s.into()),
        _ => Method::Annealing(s.into()),
    }
}

impl From<Job> for JobRecord {
    ghost from_gives = { λ j r. r ≡ record_of j };

    fn from(job: Job) -> JobRecord {
        let surfaces = job.prescription.surfaces;
        let indices = job.prescription.indices;
        let variables = job.variables.variables.map(VariableRecord::from);
        let operands = job.merit_function.operands.map(OperandRecord::from);
        JobRecord {
            surfaces,
            indices,
            variables,
            operands,
            surface_count: job.prescription.surface_count as u64,
            slot_count: job.prescription.slot_count as u64,
            variable_count: job.variables.variable_count as u64,
            operand_count: job.merit_function.operand_count as u64,
            entrance_pupil_diameter_mm: job.prescription.entrance_pupil_diameter_mm,
            settings: job.method.into(),
        }
    }
}

pub fn job_of(kind: u64, held: JobRecord) -> Job
    ensures { result ≡ job_of kind held }
{
    let surfaces = held.surfaces;
    let indices = held.indices;
    let variables = held.variables.map(VariableDef::from);
    let operands = held.operands.map(MeritOperand::from);
    Job {
        prescription: OpticalPrescription {
            surfaces,
            indices,
            surface_count: held.surface_count as usize,
            slot_count: held.slot_count as usize,
            entrance_pupil_diameter_mm: held.entrance_pupil_diameter_mm,
        },
        variables: VariableSet {
            variables,
            variable_count: held.variable_count as usize,
        },
        merit_function: MeritFunction {
            operands,
            operand_count: held.operand_count as usize,
        },
        method: method_from(kind, held.settings),
    }
}

pub fn known_kinds(held: JobRecord) -> bool
    requires { (held.variable_count ≤ 8) × (held.operand_count ≤ 12) }
    ensures { result ≡ known_kinds held }
{
    let variables = held.variable_count as usize;
    let operands = held.operand_count as usize;
    held.variables
        .iter()
        .take(variables)
        .all(|v| entries::variable_known(*v))
        && held
            .operands
            .iter()
            .take(operands)
            .all(|o| entries::operand_known(*o))
}
