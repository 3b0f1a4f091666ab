// A held job and surfaces laid flat, as admission to an empty place would check them.
ghost use Rattle.std.specs.Prelude.{◌≡◌, true, ◌&&◌, List, ℕ, ◌<◌, ◌≤◌, Float, length};
ghost use Rattle.optics.specs.Check.{surfaces_taken, lens_taken};
ghost use Rattle.variables.specs.Active.{num_active, variable_at};
ghost use Rattle.variables.specs.Taken.{variable_taken, variables_taken, follower_taken, followers_taken};
ghost use Rattle.merit.specs.Check.{operand_taken, operands_taken};
ghost use Rattle.merit.specs.OperandTable.{operand_at};
ghost use Rattle.jobs.specs.Checks.{multi_start_taken, settings_taken, counts_taken, record_taken};
ghost use Rattle.jobs.specs.Entries.{variable_known, operand_known};
ghost use Rattle.jobs.specs.Records.{multi_start_config, method, known_variables, known_operands};
ghost use Rattle.held.specs.JobFrom.{standing, surface_count_from, slot_count_from, variable_count_from, operand_count_from, settings_from, job_record_from};
ghost use Rattle.held.specs.JobFrom.{held_job, prescription_from, variables_from, operands_from, variable_record_from, operand_record_from};

use held::LentJob;
use runs::methods;
use variables::VariableDef;

#[tactic(auto, unfolding(jobs::specs::Checks::counts_taken))]
pub(crate) fn counts_taken(job: LentJob) -> bool
    ensures { (numbers : List Float) (kind : ℕ) → result ≡ counts_taken (held_job job.entry.counts.now numbers kind) }
{
    optics::lens_counts_taken(job.surface_count(), job.slot_count())
        && job.variable_count() <= 8
        && job.operand_count() <= 12
}

// Check 3 on surfaces laid flat.
pub(crate) fn surfaces_taken(flat: &[f64], count: usize) -> bool
    requires { (count ≤ 16) × (64 ≤ length flat.now) }
    ensures { result ≡ surfaces_taken (standing flat.now) count }
{
    (0..count).all(|i| optics::surface_taken(optics::surface_at(flat, i)))
}

// Check 3 on the lens.
#[tactic(auto, unfolding(optics::specs::Check::lens_taken))]
fn lens_taken(job: LentJob) -> bool
    requires { (surface_count_from job.counts.now ≤ 16) × (slot_count_from job.counts.now ≤ 4) }
    ensures { result ≡ lens_taken (prescription_from job.entry.counts.now job.entry.numbers.now) }
{
    let count = job.surface_count();
    optics::above_zero_up_to(1e9, job.pupil())
        && surfaces_taken(job.numbers, count)
        && optics::indices_taken(job.indices(), job.slot_count(), count)
}

// Checks 4 and 17 on one variable.
fn variable_taken(d: VariableDef, surfaces: usize) -> bool
    ensures { result ≡ variable_taken surfaces d && follower_taken surfaces d.var_type d.follower }
{
    variables::variable_taken(d, surfaces)
        && variables::follower_taken(d.var_type, d.follower, surfaces)
}

// These, and that the variable's kind, mark and sign are ones that there are.
fn variable_sound(job: LentJob, i: usize, surfaces: usize) -> bool
    requires { i < 8 }
    ensures { let d = variable_at (variables_from job.entry.counts.now job.entry.numbers.now) i in
        result ≡ variable_taken surfaces d && follower_taken surfaces d.var_type d.follower
        && variable_known (variable_record_from job.entry.counts.now job.entry.numbers.now i) }
{
    variable_taken(job.variable_at(i), surfaces) && job.variable_known(i)
}

// The counts are asked loose here and in the two others: each has the one fact that it needs, straight from `counts_taken`.
fn variables_taken(job: LentJob) -> bool
    requires { variable_count_from job.counts.now ≤ 8 }
    ensures { result ≡ variables_taken (surface_count_from job.entry.counts.now) (variables_from job.entry.counts.now job.entry.numbers.now)
        && followers_taken (surface_count_from job.entry.counts.now) (variables_from job.entry.counts.now job.entry.numbers.now)
        && known_variables (job_record_from job.entry.counts.now job.entry.numbers.now) }
{
    let surfaces = job.surface_count();
    (0..job.variable_count()).all(|i| variable_sound(job, i, surfaces))
}

// Check 5 on one operand, and that its kind is one that there is.
fn operand_sound(job: LentJob, n: usize, slots: usize) -> bool
    requires { n < 12 }
    ensures { result ≡ operand_taken slots (operand_at (operands_from job.entry.counts.now job.entry.numbers.now) n)
        && operand_known (operand_record_from job.entry.counts.now job.entry.numbers.now n) }
{
    meritcalls::operand_taken(slots, job.operand_at(n)) && job.operand_known(n)
}

fn operands_taken(job: LentJob) -> bool
    requires { operand_count_from job.counts.now ≤ 12 }
    ensures { result ≡ operands_taken (slot_count_from job.entry.counts.now) (operands_from job.entry.counts.now job.entry.numbers.now)
        && known_operands (job_record_from job.entry.counts.now job.entry.numbers.now) }
{
    let slots = job.slot_count();
    (0..job.operand_count()).all(|n| operand_sound(job, n, slots))
}

#[tactic(auto, unfolding(jobs::specs::Checks::multi_start_taken))]
fn multi_start_taken(job: LentJob) -> bool
    ensures { result ≡ multi_start_taken (multi_start_config (settings_from job.entry.counts.now job.entry.numbers.now)) }
{
    jobs::dls_taken(job.dls_config()) && job.num_trials() <= 1000
}

// Check 6 on the settings of the row's kind.
#[tactic(auto, unfolding(jobs::specs::Records::method))]
fn settings_taken(kind: u64, job: LentJob) -> bool
    ensures { result ≡ settings_taken (method kind (settings_from job.entry.counts.now job.entry.numbers.now)) }
{
    match kind {
        methods::DAMPED => jobs::dls_taken(job.dls_config()),
        methods::MULTI_START => multi_start_taken(job),
        _ => jobs::annealing_taken(job.annealing_config()),
    }
}

// Whether the job would be admitted to an empty place and has no number that is no kind, mark or sign; its counts are taken, and p variables enabled.
pub(crate) fn job_taken(kind: u64, job: LentJob, p: usize) -> bool
    requires { (counts_taken (held_job job.counts.now job.numbers.now kind) ≡ true)
        × (p ≡ num_active (variables_from job.counts.now job.numbers.now)) }
    ensures { result ≡ record_taken kind (job_record_from job.entry.counts.now job.entry.numbers.now) }
{
    lens_taken(job)
        && variables_taken(job)
        && operands_taken(job)
        && settings_taken(kind, job)
        && p > 0
        && job.operand_count() > 0
}
