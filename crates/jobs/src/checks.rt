// What is checked of a job on admission, but for the place.
ghost use Rattle.std.specs.Prelude.{◌≡◌, ◌&&◌};
ghost use Rattle.lists.specs.Refusals.{first_refusal};
ghost use Rattle.refusals.specs.Numbers.{answered};
ghost use Rattle.jobs.specs.Checks.{from_zero_to, dls_taken, multi_start_taken, annealing_taken, settings_taken, counts_taken, job_refusals};

use crate::types::{DlsConfig, Job, Method, MultiStartConfig, SimulatedAnnealingConfig};
use refusals::Refusal;

#[tactic(auto, unfolding(crate::specs::Checks::from_zero_to))]
fn from_zero_to(top: f64, x: f64) -> bool
    ensures { result ≡ from_zero_to top x }
{
    0.0 <= x && x <= top
}

#[tactic(auto, unfolding(crate::specs::Checks::dls_taken))]
pub fn dls_taken(c: DlsConfig) -> bool
    ensures { result ≡ dls_taken c }
{
    from_zero_to(1e8, c.initial_damping)
        && from_zero_to(1.0, c.finite_difference_relative_step)
        && floats::is_finite(c.relative_merit_tolerance)
        && floats::is_finite(c.gradient_tolerance)
        && c.max_iterations <= 1000
}

#[tactic(auto, unfolding(crate::specs::Checks::multi_start_taken))]
fn multi_start_taken(c: MultiStartConfig) -> bool
    ensures { result ≡ multi_start_taken c }
{
    dls_taken(c.local_dls_config) && c.num_trials <= 1000
}

#[tactic(auto, unfolding(crate::specs::Checks::annealing_taken))]
pub fn annealing_taken(c: SimulatedAnnealingConfig) -> bool
    ensures { result ≡ annealing_taken c }
{
    from_zero_to(1.0, c.cooling_rate)
        && floats::is_finite(c.initial_temperature)
        && c.max_cooling_cycles <= 1000
        && c.steps_per_temperature <= 1000
}

fn settings_taken(m: Method) -> bool
    ensures { result ≡ settings_taken m }
{
    match m {
        Method::Damped(c) => dls_taken(c),
        Method::MultiStart(c) => multi_start_taken(c),
        Method::Annealing(c) => annealing_taken(c),
    }
}

fn counts_taken(job: Job) -> bool
    ensures { result ≡ counts_taken job }
{
    optics::lens_counts_taken(job.prescription.surface_count, job.prescription.slot_count)
        && job.variables.variable_count <= 8
        && job.merit_function.operand_count <= 12
}

// Why the job would be refused on admission to an empty place.
pub fn job_refusal(job: Job) -> Result<(), Refusal>
    ensures { answered result ≡ first_refusal (job_refusals job) }
{
    let surfaces = job.prescription.surface_count;
    Refusal::BadCount.unless(counts_taken(job))?;
    Refusal::BadLens.unless(optics::lens_taken(job.prescription))?;
    Refusal::BadVariable.unless(variables::variables_taken(job.variables, surfaces))?;
    Refusal::BadFollower.unless(variables::followers_taken(job.variables, surfaces))?;
    Refusal::BadOperand.unless(meritcalls::operands_taken(
        job.prescription.slot_count,
        job.merit_function,
    ))?;
    Refusal::BadSetting.unless(settings_taken(job.method))?;
    Refusal::NoVariable.unless(variables::num_active(job.variables) != 0)?;
    Refusal::NoOperand.unless(job.merit_function.operand_count != 0)
}
