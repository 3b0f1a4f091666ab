// From a merit to just before the next, or to the end, by kind and phase.
ghost use Rattle.std.specs.Prelude.{◌≡◌, ◌≤◌, ◌<◌, length};
ghost use Rattle.normal.specs.Layout.{scratch_length};
ghost use Rattle.variables.specs.Active.{num_active};
ghost use Rattle.jobs.specs.Records.{annealing_config};
ghost use Rattle.runs.specs.State.{with_damped};
ghost use Rattle.runs.specs.JobRun.{annealer_of};
ghost use Rattle.runs.specs.DampedRow as Damped;
ghost use Rattle.runs.specs.AnnealingRow as Annealing;
ghost use Rattle.runs.specs.Rows.{advance_by};
ghost use Rattle.dls.specs.DampedSteps.{optimizer, ScratchKept};
ghost use Rattle.held.specs.declared.types.HeldBest.{HeldBest};
ghost use Rattle.held.specs.RowFrom.{state_from};
ghost use Rattle.dls.specs.Found.{ForFound};
ghost use Rattle.held.specs.JobOf.{variables_of, operand_count_of, settings_of, job_of};

use held::{CountedJob, HeldBest, HeldRun, RowHead, VariedJob};
use heldmerit::merit_of;
use jobs::DlsConfig;
use runs::{methods, phases};

// The damped part under these settings; all else stays.
fn advance_part(
    h: RowHead,
    config: DlsConfig,
    job: CountedJob,
    found: &[f64; 12],
    run: &mut HeldRun,
    scratch: &mut [f64],
) -> RowHead
    requires fact_1 { scratch_length ≤ length scratch.old }
    requires fact_2 { h.damped.column < num_active (variables_of job.held) }
    ensures fact_1 { ForFound job.entry.held found.now (λ e. (best : HeldBest) →
        let o = optimizer config (variables_of job.entry.held) (operand_count_of job.entry.held) in
        let before = state_from h run.old best in
        state_from result run.new best ≡ with_damped before (Damped.advance o before.damped e)) }
    ensures fact_2 { ScratchKept scratch.old scratch.new }
{
    let damped = dls::advance_damped(h.damped, config, job, found, run, scratch);
    RowHead { damped, ..h }
}

fn advance_annealing(
    h: RowHead,
    job: CountedJob,
    found: &[f64; 12],
    run: &mut HeldRun,
    best: &mut HeldBest,
    scratch: &mut [f64],
) -> RowHead
    requires fact_1 { scratch_length ≤ length scratch.old }
    requires fact_2 { h.damped.column < num_active (variables_of job.held) }
    ensures fact_1 { ForFound job.entry.held found.now (λ e.
        let a = annealer_of (job_of job.entry.held 3)
        (annealing_config (settings_of job.entry.held)) in
        state_from result run.new best.new ≡ Annealing.advance a (state_from h run.old best.old) e) }
    ensures fact_2 { ScratchKept scratch.old scratch.new }
{
    let config = job.held.annealing_config();
    match h.damped.phase {
        phases::WALK_FIRST => {
            annealing::advance_walk_first(
                config,
                merit_of(found, job.held),
                VariedJob { held: job.held },
                run,
                best,
            )
        }
        phases::WALK => {
            annealing::advance_walk(
                h,
                config,
                merit_of(found, job.held),
                VariedJob { held: job.held },
                run,
                best,
            )
        }
        _ => advance_part(h, defaults::polish_settings(), job, found, run, scratch),
    }
}

// The state after the merit that came next. A turn uses the first 128 of scratch.
pub(crate) fn advance_run(
    h: RowHead,
    kind: u64,
    job: CountedJob,
    found: &[f64; 12],
    run: &mut HeldRun,
    best: &mut HeldBest,
    scratch: &mut [f64],
) -> RowHead
    requires fact_1 { scratch_length ≤ length scratch.old }
    requires fact_2 { h.damped.column < num_active (variables_of job.held) }
    ensures fact_1 { ForFound job.entry.held found.now (λ e.
        let j = job_of job.entry.held kind in
        state_from result run.new best.new ≡ advance_by j.method j (state_from h run.old best.old) e) }
    ensures fact_2 { ScratchKept scratch.old scratch.new }
{
    // What is neither of the first two counts as annealing.
    match kind {
        methods::DAMPED => advance_part(h, job.held.dls_config(), job, found, run, scratch),
        methods::MULTI_START => multistart::advance_trials(h, job, found, run, best, scratch),
        _ => advance_annealing(h, job, found, run, best, scratch),
    }
}
