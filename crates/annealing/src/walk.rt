// Annealing's walk, from merit to merit as far as the polish: a step judged and the next one's draws made.
ghost use Rattle.std.specs.Prelude.{◌≡◌, false, ℕ};
ghost use Rattle.runs.specs.AnnealingRow.{walk, walk_first, resume_steps, advance_at};
ghost use Rattle.draws.specs.Parts.{ForAnnealerBy};
ghost use Rattle.held.specs.RowFrom.{state_from};
ghost use Rattle.annealing.specs.WalkFrom.{walk_from};
ghost use Rattle.held.specs.JobOf.{variables_of};

use crate::judging::WalkHead;
use crate::steps::{at_polish, at_step};
use crate::{cycles, judging};
use held::{HeldBest, HeldRun, RowHead, VariedJob};
use jobs::SimulatedAnnealingConfig;
use merit::MeritEvaluation;

// The cycle is over: it cools, and the next one begins, or the polish.
// global.rs: `temp *= self.config.cooling_rate`
#[tactic(auto, unfolding(runs::specs::AnnealingRow::resume_steps, runs::specs::AnnealingRow::resume_cycles))]
fn next_cycle(
    w: WalkHead,
    config: SimulatedAnnealingConfig,
    initial_merit: f64,
    c: u64,
    job: VariedJob,
    run: &mut HeldRun,
    best: &mut HeldBest,
) -> RowHead
    ensures { ForAnnealerBy config (variables_of job.entry.held) (λ a. (k : ℕ) →
        state_from result run.new best.new ≡ resume_steps a false initial_merit (walk_from w run.old best.old) c k) }
{
    let cool = WalkHead {
        temp: w.temp * config.cooling_rate,
        ..w
    };
    if cycles::is_next_cycle(config, c) {
        return at_step(cool, initial_merit, c + 1, 0, job, run, best);
    }
    at_polish(initial_merit, run, best)
}

// After the merit of the base: the first step, or the polish where there is none.
pub fn advance_walk_first(
    config: SimulatedAnnealingConfig,
    merit: f64,
    job: VariedJob,
    run: &mut HeldRun,
    best: &mut HeldBest,
) -> RowHead
    ensures { ForAnnealerBy config (variables_of job.entry.held)
        (λ a. (h : RowHead) (e : MeritEvaluation) → e.total_merit ≡ merit →
        state_from result run.new best.new ≡ advance_at a walk_first (state_from h run.old best.old) e) }
{
    let w = judging::started(config, merit, job, run, best);
    if cycles::is_first_cycle(config) {
        return at_step(w, merit, 0, 0, job, run, best);
    }
    at_polish(merit, run, best)
}

// After the merit of a step: the next step, the next cycle, or the polish.
// global.rs: `optimize`, from one `evaluate` to the next
#[tactic(auto, unfolding(runs::specs::AnnealingRow::advance_at, runs::specs::AnnealingRow::resume_steps))]
pub fn advance_walk(
    h: RowHead,
    config: SimulatedAnnealingConfig,
    merit: f64,
    job: VariedJob,
    run: &mut HeldRun,
    best: &mut HeldBest,
) -> RowHead
    ensures { ForAnnealerBy config (variables_of job.entry.held) (λ a. (e : MeritEvaluation) → e.total_merit ≡ merit →
        state_from result run.new best.new ≡ advance_at a walk (state_from h run.old best.old) e) }
{
    let w = WalkHead {
        current_merit: h.current_merit,
        best_merit: h.best.final_merit,
        rng: h.generator,
        temp: h.temperature,
    };
    let next = judging::judged(w, merit, job, run, best);
    let initial_merit = h.best.initial_merit;
    if cycles::has_next(h.step, config.steps_per_temperature) {
        return at_step(next, initial_merit, h.cycle, h.step + 1, job, run, best);
    }
    next_cycle(next, config, initial_merit, h.cycle, job, run, best)
}
