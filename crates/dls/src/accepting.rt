// The candidate's merit: an accepted step, and the next iteration, or the attempts that are left.
ghost use Rattle.std.specs.Prelude.{◌≡◌, ◌&&◌, ℕ, ◌≤◌, ◌<◌, ltb, length};
ghost use Rattle.std.specs.Float.Ieee.{lt};
ghost use Rattle.floats.specs.Basic.{finite_of};
ghost use Rattle.normal.specs.Layout.{scratch_length};
ghost use Rattle.variables.specs.Active.{num_active};
ghost use Rattle.jobs.specs.declared.types.DlsConfig.{DlsConfig};
ghost use Rattle.runs.specs.DampedRow as Damped;
ghost use Rattle.runs.specs.DampedRow.{current_of, advance_at, resume_after};
ghost use Rattle.runs.specs.DampedRun.{moved, accepted};
ghost use Rattle.dls.specs.DampedSteps.{optimizer, with_current, ScratchKept, relative_gain, iteration_entered};
ghost use Rattle.held.specs.RowFrom.{damped_from};
ghost use Rattle.dls.specs.Found.{ForFound};
ghost use Rattle.held.specs.JobOf.{variables_of, operand_count_of};

use crate::attempts::resume_rejected;
use crate::states::{at_plus, ended};
use floats::{is_finite, max};
use held::{CountedJob, Head, HeldRun, VariedJob, apply_values};
use heldmerit::{merit_of, residuals_of};
use jobs::DlsConfig;
use normal::Damping;

// Whether a merit is an improvement.
// dls.rs: "Successful reduction!"
fn is_reduction(merit: f64, current: f64) -> bool
    ensures { result ≡ finite_of merit && lt merit current }
{
    is_finite(merit) && merit < current
}

// By how much, relative to the merit so far.
fn rel_improvement(merit: f64, current: f64) -> f64
    ensures { result ≡ relative_gain merit current }
{
    (current - merit) / max(current, 1e-12)
}

// The next iteration, where there is one: its Jacobian is zero, and its first column comes first.
// dls.rs: `while iteration < self.config.max_iterations`
#[tactic(auto, unfolding(crate::specs::DampedSteps::iteration_entered))]
pub(crate) fn resume_iterations(h: Head, limit: u64, run: &mut HeldRun) -> Head
    ensures { damped_from result run.new ≡ iteration_entered (ltb h.iteration limit) (current_of (damped_from h run.old)) }
{
    if h.iteration < limit {
        run.jacobian = [0.0; 96];
        let next = Head {
            iteration: h.iteration + 1,
            ..h
        };
        return at_plus(next, 0, run);
    }
    ended(h, false, run)
}

// The candidate's surfaces, parameters and merit become the current ones, and the damping is eased.
// dls.rs: `current_prescription = test_presc` and on
fn moved(h: Head, merit: f64, job: CountedJob, found: &[f64; 12], run: &mut HeldRun) -> Head
    ensures { ForFound job.entry.held found.now (λ e. e.total_merit ≡ merit → (config : DlsConfig) (m : ℕ) →
        let o = optimizer config (variables_of job.entry.held) m in
        let before = damped_from h run.old in
        damped_from result run.new ≡ with_current before (moved o run.old.candidate e (current_of before))) }
{
    apply_values(
        VariedJob { held: job.held },
        run.candidate,
        &mut run.surfaces,
    );
    run.params = run.candidate;
    run.values = *found;
    run.residuals = residuals_of(found, job.held);
    let damping = Damping { value: h.damping };
    Head {
        total_merit: merit,
        damping: damping.ease().value,
        ..h
    }
}

// An accepted step: the run has converged where the improvement was small, else it goes on.
fn advance_accepted(
    h: Head,
    config: DlsConfig,
    merit: f64,
    job: CountedJob,
    found: &[f64; 12],
    run: &mut HeldRun,
) -> Head
    requires { 0 < num_active (variables_of job.held) }
    ensures { ForFound job.entry.held found.now (λ e. e.total_merit ≡ merit → (m : ℕ) →
        let o = optimizer config (variables_of job.entry.held) m in
        damped_from result run.new ≡ resume_after o (accepted o run.old.candidate e (current_of (damped_from h run.old)))) }
{
    let gain = rel_improvement(merit, h.total_merit);
    let next = moved(h, merit, job, found, run);
    if gain < config.relative_merit_tolerance {
        return ended(next, true, run);
    }
    resume_iterations(next, config.max_iterations, run)
}

// The candidate's merit.
pub(crate) fn advance_candidate(
    h: Head,
    config: DlsConfig,
    job: CountedJob,
    found: &[f64; 12],
    run: &mut HeldRun,
    scratch: &mut [f64],
) -> Head
    requires fact_1 { scratch_length ≤ length scratch.old }
    requires fact_2 { 0 < num_active (variables_of job.held) }
    ensures fact_1 { ForFound job.entry.held found.now (λ e.
        let o = optimizer config (variables_of job.entry.held) (operand_count_of job.entry.held) in
        damped_from result run.new ≡ advance_at o Damped.candidate (damped_from h run.old) e) }
    ensures fact_2 { ScratchKept scratch.old scratch.new }
{
    let merit = merit_of(found, job.held);
    if is_reduction(merit, h.total_merit) {
        return advance_accepted(h, config, merit, job, found, run);
    }
    resume_rejected(h, job, run, scratch)
}
