// The normal equations of a damped run and the attempts at a step, from where they are entered to just before the next
// merit, or to the end. The product and the gradient stand in scratch through all attempts of a turn.
ghost use Rattle.std.specs.Prelude.{◌≡◌, not, ◌||◌, ◌-◌, ◌≤◌, length};
ghost use Rattle.std.specs.Float.Ieee.{lt};
ghost use Rattle.floats.specs.Basic.{finite_of};
ghost use Rattle.normal.specs.Layout.{scratch_length, most_variables};
ghost use Rattle.jobs.specs.declared.types.DlsConfig.{DlsConfig};
ghost use Rattle.variables.specs.Active.{num_active};
ghost use Rattle.runs.specs.DampedRow.{current_of, resume_stationary, resume_attempts};
ghost use Rattle.runs.specs.DampedRun.{is_stationary, raised};
ghost use Rattle.dls.specs.DampedSteps.{optimizer, ScratchKept, stepped_in, candidate_in, AttemptsMade};
ghost use Rattle.held.specs.RowFrom.{damped_from};
ghost use Rattle.held.specs.JobOf.{variables_of, operand_count_of};

use crate::states::{at_candidate, ended};
use floats::is_finite;
use held::{CountedJob, Head, HeldRun, VariedJob, clamp_values};
use jobs::DlsConfig;
use normal::{Damping, STEP, attempt_step, normal_equations};

// The first p parameters moved by the step that stands in scratch.
// dls.rs: `candidate_params[i] += dx[i]`
fn stepped(params: [f64; 8], p: usize, scratch: &[f64]) -> [f64; 8]
    requires fact_1 { scratch_length ≤ length scratch.now }
    requires fact_2 { p ≤ most_variables }
    ensures { result ≡ stepped_in params p scratch.now }
{
    let mut x = params;
    for q in 0..p {
        x[q] = params[q] + scratch[STEP + q];
    }
    x
}

// The candidate: each parameter after its step, within its bounds.
#[tactic(auto, using(crate::proofs::Few::few))]
fn candidate_params(p: usize, job: VariedJob, params: [f64; 8], scratch: &[f64]) -> [f64; 8]
    requires fact_1 { scratch_length ≤ length scratch.now }
    requires fact_2 { p ≡ num_active (variables_of job.held) }
    ensures { result ≡ candidate_in (variables_of job.entry.held) params scratch.now }
{
    let moved = stepped(params, p, scratch);
    clamp_values(job, moved)
}

// The attempts from number `first` on, under a damping: the next candidate, or the end where none of the ten has a step.
// dls.rs: `for _attempt in 0..10`
#[tactic(auto, using(crate::proofs::Few::few))]
fn resume_attempts(
    h: Head,
    p: usize,
    damping: Damping,
    first: u64,
    job: VariedJob,
    run: &mut HeldRun,
    scratch: &mut [f64],
) -> Head
    requires fact_1 { scratch_length ≤ length scratch.old }
    requires fact_2 { p ≡ num_active (variables_of job.held) }
    ensures { AttemptsMade (variables_of job.entry.held) (damped_from h run.old) damping first scratch.old scratch.new
        (damped_from result run.new) }
{
    let mut now = damping;
    for k in first..10 {
        if !attempt_step(scratch, p, now) {
            now = now.raise();
            continue;
        }
        let found = candidate_params(p, job, run.params, scratch);
        return at_candidate(h, now.value, k + 1, found, run);
    }
    ended(h, false, run)
}

// Whether the gradient stops the run: also where its norm is not finite.
// dls.rs: "Gradient norm termination check"
fn is_stationary(norm: f64, tolerance: f64) -> bool
    ensures { result ≡ not (finite_of norm) || lt norm tolerance }
{
    !is_finite(norm) || norm < tolerance
}

// The Jacobian is whole: the gradient's stop comes before any attempt.
#[tactic(auto, using(crate::proofs::Few::few))]
pub(crate) fn resume_stationary(
    h: Head,
    config: DlsConfig,
    job: CountedJob,
    run: &mut HeldRun,
    scratch: &mut [f64],
) -> Head
    requires { scratch_length ≤ length scratch.old }
    ensures fact_1 { (let o = optimizer config (variables_of job.entry.held) (operand_count_of job.entry.held) in
        let before = current_of (damped_from h run.old) in
        damped_from result run.new ≡ resume_stationary o (is_stationary o run.old.jacobian before) run.old.jacobian before) }
    ensures fact_2 { ScratchKept scratch.old scratch.new }
{
    let p = job.held.num_active();
    let m = job.held.operand_count();
    let norm = normal_equations(scratch, &run.jacobian, &run.residuals, m, p);
    if is_stationary(norm, config.gradient_tolerance) {
        return ended(h, true, run);
    }
    let damping = Damping { value: h.damping };
    resume_attempts(h, p, damping, 0, VariedJob { held: job.held }, run, scratch)
}

// A candidate was not accepted: its attempt is over, and the damping is raised.
// dls.rs: "step rejected .. increase damping"
#[tactic(auto, using(crate::proofs::Few::few))]
pub(crate) fn resume_rejected(
    h: Head,
    job: CountedJob,
    run: &mut HeldRun,
    scratch: &mut [f64],
) -> Head
    requires { scratch_length ≤ length scratch.old }
    ensures fact_1 { ((config : DlsConfig) →
        let o = optimizer config (variables_of job.entry.held) (operand_count_of job.entry.held) in
        damped_from result run.new
        ≡ resume_attempts o (10 - h.attempt) run.old.jacobian (raised (current_of (damped_from h run.old))) h.attempt) }
    ensures fact_2 { ScratchKept scratch.old scratch.new }
{
    let p = job.held.num_active();
    let m = job.held.operand_count();
    let norm = normal_equations(scratch, &run.jacobian, &run.residuals, m, p);
    let damping = Damping { value: h.damping };
    resume_attempts(
        h,
        p,
        damping.raise(),
        h.attempt,
        VariedJob { held: job.held },
        run,
        scratch,
    )
}
