// A row as a held row: for admission, which is not in a hurry.
ghost use Rattle.std.specs.Prelude.{◌≡◌};
ghost use Rattle.optics.specs.Flat.{laid_flat};
ghost use Rattle.runs.specs.State.{state_of};
ghost use Rattle.held.specs.Written.{head_of, held_run, held_best, held_from};

use crate::written;
use held::{BestHead, Head, HeldBest, HeldHead, HeldJob, HeldRow, HeldRun, RowHead};
use merit::MeritEvaluation;
use optics::OpticalSurface;
use runs::{DampedState, OptimizationResult, Row};

// The numbers of a row that are no arrays.
fn head_from(row: Row) -> RowHead
    ensures { result ≡ head_of (state_of row) }
{
    let d = row.damped;
    let b = row.best;
    let damped = Head {
        total_merit: d.evaluation.total_merit,
        initial_merit: d.initial_merit,
        damping: d.damping,
        phase: d.phase,
        iteration: d.iteration,
        column: d.column,
        attempt: d.attempt,
        converged: d.converged,
    };
    let best = BestHead {
        initial_merit: b.initial_merit,
        final_merit: b.final_merit,
        iterations: b.iterations,
        converged: b.converged,
    };
    RowHead {
        damped,
        best,
        generator: row.generator,
        trial: row.trial,
        cycle: row.cycle,
        step: row.step,
        temperature: row.temperature,
        current_merit: row.current_merit,
    }
}

// Surfaces as flat numbers.
fn laid(surfaces: [OpticalSurface; 16]) -> [f64; 64]
    ensures { result ≡ laid_flat surfaces 16 }
{
    let mut flat = [0.0; 64];
    optics::lay_flat(surfaces, 16, &mut flat);
    flat
}

// Arrays by a pattern: the borrow checker takes none straight from a field into a literal.
fn held_run(damped: DampedState) -> HeldRun
    ensures { result ≡ held_run damped }
{
    let DampedState {
        jacobian,
        evaluation,
        plus_residuals,
        params,
        candidate,
        ..
    } = damped;
    let MeritEvaluation {
        values,
        residuals,
        ..
    } = evaluation;
    let surfaces = laid(damped.surfaces);
    HeldRun {
        surfaces,
        jacobian,
        values,
        residuals,
        plus_residuals,
        params,
        candidate,
    }
}

fn held_best(best: OptimizationResult) -> HeldBest
    ensures { result ≡ held_best best }
{
    let OptimizationResult {
        values,
        residuals,
        ..
    } = best;
    let surfaces = laid(best.surfaces);
    HeldBest {
        surfaces,
        values,
        residuals,
    }
}

// No `From`: neither type is of this crate, and an impl of std's trait must name one that is.
pub fn held_of(row: Row) -> HeldRow
    ensures { result ≡ held_from row }
{
    HeldRow {
        head: HeldHead::of(row.kind, row.turns, head_from(row)),
        job: written::held_job(row.job),
        run: held_run(row.damped),
        best: held_best(row.best),
    }
}
