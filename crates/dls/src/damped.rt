// A damped run, from one merit to the next: the surfaces whose merit comes next, and how the run goes on with that merit.
ghost use Rattle.std.specs.Prelude.{◌≡◌, ℕ, ◌≤◌, ◌<◌, length};
ghost use Rattle.normal.specs.Layout.{scratch_length};
ghost use Rattle.variables.specs.Active.{num_active};
ghost use Rattle.runs.specs.DampedRow as Damped;
ghost use Rattle.runs.specs.DampedRow.{pending, advance, advance_at};
ghost use Rattle.dls.specs.DampedSteps.{optimizer, ScratchKept};
ghost use Rattle.dls.specs.RunWith.{run_with};
ghost use Rattle.held.specs.declared.types.HeldRun.{HeldRun};
ghost use Rattle.held.specs.JobFrom.{standing};
ghost use Rattle.held.specs.RowFrom.{damped_from};
ghost use Rattle.held.specs.Standing.{Behind};
ghost use Rattle.dls.specs.Found.{ForFound};
ghost use Rattle.held.specs.JobOf.{variables_of, operand_count_of};

use crate::accepting::{advance_candidate, resume_iterations};
use crate::attempts::resume_stationary;
use crate::columns::{lay_moved, moved_down, moved_up, with_differences};
use crate::states::{at_minus, at_plus};
use held::{CountedJob, Head, HeldRun, VariedJob, copy, extract_values, lay_applied};
use heldmerit::{merit_of, residuals_of};
use jobs::DlsConfig;
use runs::phases;

// The surfaces whose merit comes next, laid where it is worked out.
#[tactic(auto, using(crate::proofs::Few::few))]
pub fn pending_damped(
    h: Head,
    config: DlsConfig,
    job: VariedJob,
    surfaces: &[f64; 64],
    params: &[f64; 8],
    candidate: &[f64; 8],
    flat: &mut [f64],
)
    requires fact_1 { h.column < num_active (variables_of job.held) }
    requires fact_2 { 64 ≤ length flat.old }
    ensures fact_1 { ((m : ℕ) (run : HeldRun) →
        let before = damped_from h (run_with surfaces.now params.now candidate.now run) in
        standing flat.new ≡ pending (optimizer config (variables_of job.entry.held) m) before) }
    ensures fact_2 { Behind flat.old flat.new }
{
    match h.phase {
        phases::PLUS => lay_moved(moved_up, h, config, job, surfaces, params, flat),
        phases::MINUS => lay_moved(moved_down, h, config, job, surfaces, params, flat),
        phases::CANDIDATE => lay_applied(job, *candidate, surfaces, flat),
        _ => copy(surfaces, flat),
    }
}

// The first merit is of the surfaces as they are; the parameters are read from them.
// dls.rs: `optimize` up to its loop
fn advance_first(
    h: Head,
    config: DlsConfig,
    job: CountedJob,
    found: &[f64; 12],
    run: &mut HeldRun,
) -> Head
    requires { 0 < num_active (variables_of job.held) }
    ensures { ForFound job.entry.held found.now (λ e. (m : ℕ) →
        let o = optimizer config (variables_of job.entry.held) m in
        damped_from result run.new ≡ advance_at o Damped.first (damped_from h run.old) e) }
{
    run.params = extract_values(VariedJob { held: job.held }, &run.surfaces);
    run.values = *found;
    run.residuals = residuals_of(found, job.held);
    let merit = merit_of(found, job.held);
    let next = Head {
        total_merit: merit,
        initial_merit: merit,
        damping: config.initial_damping,
        iteration: 0,
        ..h
    };
    resume_iterations(next, config.max_iterations, run)
}

// The merit on the lower side: a column is done, and where it was the last the step is sought.
#[tactic(auto, using(crate::proofs::Few::few))]
fn advance_minus(
    h: Head,
    config: DlsConfig,
    job: CountedJob,
    found: &[f64; 12],
    run: &mut HeldRun,
    scratch: &mut [f64],
) -> Head
    requires fact_1 { scratch_length ≤ length scratch.old }
    requires fact_2 { h.column < num_active (variables_of job.held) }
    ensures fact_1 { ForFound job.entry.held found.now (λ e.
        let o = optimizer config (variables_of job.entry.held) (operand_count_of job.entry.held) in
        damped_from result run.new ≡ advance_at o Damped.minus (damped_from h run.old) e) }
    ensures fact_2 { ScratchKept scratch.old scratch.new }
{
    let below = residuals_of(found, job.held);
    with_differences(h, config, job, below, run);
    let column = h.column + 1;
    let p = job.held.num_active();
    if (column as usize) < p {
        return at_plus(h, column, run);
    }
    resume_stationary(h, config, job, run, scratch)
}

// The state after the merit that came next. A turn uses the first 128 of scratch.
// dls.rs: `optimize`, from one `evaluate` to the next
pub fn advance_damped(
    h: Head,
    config: DlsConfig,
    job: CountedJob,
    found: &[f64; 12],
    run: &mut HeldRun,
    scratch: &mut [f64],
) -> Head
    requires fact_1 { scratch_length ≤ length scratch.old }
    requires fact_2 { h.column < num_active (variables_of job.held) }
    ensures fact_1 { ForFound job.entry.held found.now (λ e.
        let o = optimizer config (variables_of job.entry.held) (operand_count_of job.entry.held) in
        damped_from result run.new ≡ advance o (damped_from h run.old) e) }
    ensures fact_2 { ScratchKept scratch.old scratch.new }
{
    match h.phase {
        phases::FIRST => advance_first(h, config, job, found, run),
        phases::PLUS => at_minus(h, residuals_of(found, job.held), run),
        phases::MINUS => advance_minus(h, config, job, found, run, scratch),
        phases::CANDIDATE => advance_candidate(h, config, job, found, run, scratch),
        _ => h,
    }
}
