// A step of annealing's walk judged: the run and the best result are lent, the walk's numbers go by value.
ghost use Rattle.std.specs.Prelude.{◌≡◌};
ghost use Rattle.runs.specs.AnnealingRun as Run;
ghost use Rattle.held.specs.JobFrom.{standing};
ghost use Rattle.draws.specs.Parts.{ForAnnealer, ForAnnealerBy};
ghost use Rattle.annealing.specs.WalkFrom.{walk_from, WalkAlone};
ghost use Rattle.held.specs.JobOf.{variables_of};

use held::{HeldBest, HeldRun, VariedJob};
use jobs::SimulatedAnnealingConfig;
use merit::MeritEvaluation;

// The numbers that `optimize` holds from one step to the next.
#[derive(Clone, Copy)]
pub(crate) struct WalkHead {
    pub current_merit: f64,
    pub best_merit: f64,
    pub rng: u64,
    pub temp: f64,
}

// The walk before the first step, from the surfaces as they are.
// global.rs: `optimize` up to its loops
pub(crate) fn started(
    config: SimulatedAnnealingConfig,
    merit: f64,
    job: VariedJob,
    run: &mut HeldRun,
    best: &mut HeldBest,
) -> WalkHead
    ensures fact_1 { ForAnnealerBy config (variables_of job.entry.held) (λ a. (e : MeritEvaluation) → e.total_merit ≡ merit →
        walk_from result run.new best.new ≡ Run.started a (standing run.old.surfaces) e) }
    ensures fact_2 { WalkAlone run.old best.old run.new best.new }
{
    run.params = held::extract_values(job, &run.surfaces);
    best.surfaces = run.surfaces;
    WalkHead {
        current_merit: merit,
        best_merit: merit,
        rng: xorshift::Rng64::new(config.seed).state,
        temp: config.initial_temperature,
    }
}

// The chance of a step by which the merit rises: the temperature has its floor in the quotient only.
#[tactic(auto, unfolding(runs::specs::AnnealingRun::prob))]
fn prob(delta_merit: f64, temp: f64) -> f64
    ensures { result ≡ Run.prob delta_merit temp }
{
    floats::exp_stand_in(-delta_merit / floats::max(temp, 1e-12))
}

// The step is taken, and kept as the best where its merit is strictly lower.
// global.rs: `if accept`
#[tactic(auto, unfolding(runs::specs::AnnealingRun::accepted, runs::specs::AnnealingRun::if_best, runs::specs::AnnealingRun::trial_presc))]
fn accepted(
    w: WalkHead,
    merit: f64,
    job: VariedJob,
    run: &mut HeldRun,
    best: &mut HeldBest,
) -> WalkHead
    ensures fact_1 { ForAnnealer (variables_of job.entry.held) (λ a.
        walk_from result run.new best.new ≡ Run.accepted a run.old.candidate merit (walk_from w run.old best.old)) }
    ensures fact_2 { WalkAlone run.old best.old run.new best.new }
{
    held::apply_values(job, run.candidate, &mut run.surfaces);
    run.params = run.candidate;
    if merit < w.best_merit {
        best.surfaces = run.surfaces;
        return WalkHead {
            current_merit: merit,
            best_merit: merit,
            ..w
        };
    }
    WalkHead {
        current_merit: merit,
        ..w
    }
}

// Metropolis acceptance: a draw only when the merit rose.
// global.rs: `accept`
#[tactic(auto, unfolding(runs::specs::AnnealingRun::judged, runs::specs::AnnealingRun::if_not_risen, runs::specs::AnnealingRun::if_drawn))]
pub(crate) fn judged(
    w: WalkHead,
    merit: f64,
    job: VariedJob,
    run: &mut HeldRun,
    best: &mut HeldBest,
) -> WalkHead
    ensures fact_1 { ForAnnealer (variables_of job.entry.held) (λ a. (e : MeritEvaluation) → e.total_merit ≡ merit →
        walk_from result run.new best.new ≡ Run.judged a run.old.candidate e (walk_from w run.old best.old)) }
    ensures fact_2 { WalkAlone run.old best.old run.new best.new }
{
    let delta_merit = merit - w.current_merit;
    if delta_merit <= 0.0 {
        return accepted(w, merit, job, run, best);
    }
    let draw = xorshift::drawn(w.rng);
    let drawn = WalkHead {
        rng: draw.state,
        ..w
    };
    if draw.unit < prob(delta_merit, w.temp) {
        return accepted(drawn, merit, job, run, best);
    }
    drawn
}
