// The best result of the trials so far.
ghost use Rattle.std.specs.Prelude.{◌≡◌};
ghost use Rattle.runs.specs.MultiStartRun.{merged};
ghost use Rattle.runs.specs.MultiStartRow.{best_before};
ghost use Rattle.runs.specs.DampedRow as Damped;
ghost use Rattle.held.specs.RowFrom.{damped_from, result_from};

use held::{BestHead, Head, HeldBest, HeldRun, RowHead};

// The result of a run at its end, kept as the best.
// global.rs: `best_result = result`
fn keep(h: Head, run: &HeldRun, best: &mut HeldBest) -> BestHead
    ensures { result_from result best.new ≡ Damped.result_of (damped_from h run.now) }
{
    best.surfaces = run.surfaces;
    best.values = run.values;
    best.residuals = run.residuals;
    BestHead {
        initial_merit: h.initial_merit,
        final_merit: h.total_merit,
        iterations: h.iteration,
        converged: h.converged,
    }
}

// A later result replaces the best only when strictly lower; before the base's, in trial 0, there is none.
#[tactic(auto, unfolding(runs::specs::MultiStartRun::merged, runs::specs::MultiStartRow::best_before, runs::specs::MultiStartRun::is_lower))]
pub(crate) fn merged(h: RowHead, run: &HeldRun, best: &mut HeldBest) -> BestHead
    ensures { result_from result best.new
        ≡ merged (best_before h.trial (result_from h.best best.old)) (Damped.result_of (damped_from h.damped run.now)) }
{
    if h.trial == 0 || h.damped.total_merit < h.best.final_merit {
        return keep(h.damped, run, best);
    }
    h.best
}
