// Multi-start: a trial of it, and from the end of a trial to just before the next one's first merit.
ghost use Rattle.std.specs.Prelude.{◌≡◌, ◌≤◌, ◌<◌, ltb, length};
ghost use Rattle.normal.specs.Layout.{scratch_length};
ghost use Rattle.variables.specs.Active.{num_active};
ghost use Rattle.runs.specs.declared.types.DampedState.{DampedState};
ghost use Rattle.runs.specs.MultiStartRun.{after_draws, trial_presc};
ghost use Rattle.runs.specs.MultiStartRow.{ended, resume_trials, resume_damped, advance};
ghost use Rattle.runs.specs.DampedRow as Damped;
ghost use Rattle.runs.specs.State.{with_damped};
ghost use Rattle.jobs.specs.Records.{dls_config};
ghost use Rattle.dls.specs.DampedSteps.{optimizer, ScratchKept};
ghost use Rattle.held.specs.JobFrom.{standing, num_trials_from};
ghost use Rattle.dls.specs.Found.{ForFound};
ghost use Rattle.draws.specs.Parts.{ForOptimizer};
ghost use Rattle.held.specs.declared.types.HeldBest.{HeldBest};
ghost use Rattle.held.specs.RowFrom.{result_from, state_from};
ghost use Rattle.held.specs.JobOf.{variables_of, operand_count_of, settings_of};

use crate::merging::merged;
use held::{BestHead, CountedJob, HeldBest, HeldRun, RowHead, VariedJob};
use runs::phases;

// The surfaces that a trial starts from; the generator after its draws.
// global.rs: `trial_presc`
#[tactic(auto, unfolding(runs::specs::MultiStartRun::trial_presc))]
fn trial_surfaces(generator: u64, job: VariedJob, surfaces: &mut [f64; 64]) -> u64
    ensures { ForOptimizer (variables_of job.entry.held)
        (λ o. standing surfaces.new ≡ trial_presc o (standing job.entry.held.numbers.now) generator)
        × (result ≡ after_draws (variables_of job.entry.held) generator) }
{
    let drawn = draws::random_params(generator, job);
    held::lay_applied(job, drawn.params, job.held.numbers, surfaces);
    drawn.generator
}

// At the end the best result alone is left.
#[tactic(auto, unfolding(held::specs::JobFrom::standing, lists::specs::Tab::tab))]
fn ended(best: BestHead, run: &mut HeldRun) -> RowHead
    ensures { (kept : HeldBest) → state_from result run.new kept ≡ ended (result_from best kept) }
{
    run.surfaces = [0.0; 64];
    run.params = [0.0; 8];
    run.candidate = [0.0; 8];
    let damped = dls::holding(phases::FINISHED, run);
    RowHead {
        damped,
        best,
        ..RowHead::default()
    }
}

// From the end of a trial, with the best of all so far: the next trial, or the end.
// global.rs: `for trial in 0..self.config.num_trials`
#[tactic(auto, unfolding(runs::specs::MultiStartRow::resume_trials))]
fn resume_trials(
    best: BestHead,
    generator: u64,
    trial: u64,
    job: VariedJob,
    run: &mut HeldRun,
) -> RowHead
    ensures { ForOptimizer (variables_of job.entry.held) (λ o. (kept : HeldBest) →
        let trials = num_trials_from job.entry.held.counts.now in
        state_from result run.new kept
        ≡ resume_trials o (standing job.entry.held.numbers.now) trials (ltb trial trials) (result_from best kept) generator trial) }
{
    if trial < job.held.num_trials() {
        let next = trial_surfaces(generator, job, &mut run.surfaces);
        let damped = dls::at_first(run);
        return RowHead {
            damped,
            best,
            generator: next,
            trial: trial + 1,
            ..RowHead::default()
        };
    }
    ended(best, run)
}

// After a merit has taken the trial's damped part to where it stands: it goes on there, or the trial is over.
#[tactic(auto, unfolding(runs::specs::MultiStartRow::resume_damped))]
fn resume_damped(h: RowHead, job: VariedJob, run: &mut HeldRun, best: &mut HeldBest) -> RowHead
    ensures { ForOptimizer (variables_of job.entry.held) (λ o. (old : DampedState) →
        let before = state_from h run.old best.old in
        state_from result run.new best.new
        ≡ resume_damped o (standing job.entry.held.numbers.now) (num_trials_from job.entry.held.counts.now) (Damped.is_finished before.damped)
        (with_damped before old) before.damped) }
{
    if kinds::damped_over(h.damped.phase) {
        let found = merged(h, run, best);
        return resume_trials(found, h.generator, h.trial, job, run);
    }
    h
}

// The state after the merit that came next.
#[tactic(auto, unfolding(runs::specs::MultiStartRow::advance))]
pub fn advance_trials(
    h: RowHead,
    job: CountedJob,
    found: &[f64; 12],
    run: &mut HeldRun,
    best: &mut HeldBest,
    scratch: &mut [f64],
) -> RowHead
    requires fact_1 { scratch_length ≤ length scratch.old }
    requires fact_2 { h.damped.column < num_active (variables_of job.held) }
    ensures fact_1 { ForFound job.entry.held found.now (λ e.
        let o = optimizer (dls_config (settings_of job.entry.held)) (variables_of job.entry.held)
        (operand_count_of job.entry.held) in
        state_from result run.new best.new
        ≡ advance o (standing job.entry.held.numbers.now) (num_trials_from job.entry.held.counts.now) (state_from h run.old best.old) e) }
    ensures fact_2 { ScratchKept scratch.old scratch.new }
{
    let damped = dls::advance_damped(h.damped, job.held.dls_config(), job, found, run, scratch);
    resume_damped(
        RowHead { damped, ..h },
        VariedJob { held: job.held },
        run,
        best,
    )
}
