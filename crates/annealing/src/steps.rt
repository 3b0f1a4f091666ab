// The two states that annealing's walk goes on to: just before the merit of a step, and the polish's beginning.
ghost use Rattle.std.specs.Prelude.{◌≡◌};
ghost use Rattle.runs.specs.AnnealingRow.{at_polish, at_step};
ghost use Rattle.runs.specs.DampedRow.{at_first};
ghost use Rattle.held.specs.JobFrom.{standing};
ghost use Rattle.held.specs.RowFrom.{state_from};
ghost use Rattle.draws.specs.Parts.{ForAnnealer};
ghost use Rattle.annealing.specs.WalkFrom.{walk_from};
ghost use Rattle.held.specs.JobOf.{variables_of};

use crate::judging::WalkHead;
use held::{BestHead, HeldBest, HeldRun, RowHead, VariedJob};
use runs::phases;

// Step k of cycle c, with its draws made.
// global.rs: `trial_params`
#[tactic(auto, unfolding(runs::specs::AnnealingRun::after_draws))]
pub(crate) fn at_step(
    w: WalkHead,
    initial_merit: f64,
    c: u64,
    k: u64,
    job: VariedJob,
    run: &mut HeldRun,
    best: &mut HeldBest,
) -> RowHead
    ensures { ForAnnealer (variables_of job.entry.held) (λ a.
        state_from result run.new best.new ≡ at_step a initial_merit (walk_from w run.old best.old) c k) }
{
    let drawn = draws::trial_params(w.rng, job, run.params);
    // By a variable: the borrow checker takes no array of another value straight into a field.
    let trial = drawn.params;
    run.candidate = trial;
    let damped = dls::holding(phases::WALK, run);
    best.values = [0.0; 12];
    best.residuals = [0.0; 12];
    RowHead {
        damped,
        best: BestHead {
            initial_merit,
            final_merit: w.best_merit,
            ..BestHead::default()
        },
        generator: drawn.generator,
        cycle: c,
        step: k,
        temperature: w.temp,
        current_merit: w.current_merit,
        ..RowHead::default()
    }
}

// The polish begins, from the best surfaces.
// global.rs: `local_optimizer_polish`
#[tactic(auto, unfolding(held::specs::JobFrom::standing, lists::specs::Tab::tab))]
pub(crate) fn at_polish(initial_merit: f64, run: &mut HeldRun, best: &mut HeldBest) -> RowHead
    ensures { state_from result run.new best.new ≡ at_polish initial_merit (at_first (standing best.old.surfaces)) }
{
    run.surfaces = best.surfaces;
    let damped = dls::at_first(run);
    best.surfaces = [0.0; 64];
    best.values = [0.0; 12];
    best.residuals = [0.0; 12];
    RowHead {
        damped,
        best: BestHead {
            initial_merit,
            ..BestHead::default()
        },
        ..RowHead::default()
    }
}
