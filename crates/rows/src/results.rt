// The result of a run at its end, read off the row's numbers and arrays.
ghost use Rattle.std.specs.Prelude.{◌≡◌, ◌≤◌};
ghost use Rattle.jobs.specs.Records.{annealing_config};
ghost use Rattle.runs.specs.AnnealingRun.{Annealer, with_prior};
ghost use Rattle.runs.specs.DampedRow as Damped;
ghost use Rattle.runs.specs.Rows.{job_of_row, result_of};
ghost use Rattle.held.specs.JobFrom.{steps_per_temperature_from, max_cooling_cycles_from, settings_from};
ghost use Rattle.held.specs.RowFrom.{damped_from, result_from, row_from};
ghost use Rattle.kinds.specs.Limits.{CountsWithin};

use held::{BestHead, Head, HeldBest, HeldRow, HeldRun, RowHead};
use runs::{OptimizationResult, methods};

fn result_from(
    b: BestHead,
    surfaces: &[f64; 64],
    values: [f64; 12],
    residuals: [f64; 12],
) -> OptimizationResult
    ensures { result ≡ result_from b (record { surfaces = surfaces.now; values = values; residuals = residuals }) }
{
    let standing = held::stand(surfaces);
    OptimizationResult {
        surfaces: standing,
        values,
        residuals,
        initial_merit: b.initial_merit,
        final_merit: b.final_merit,
        iterations: b.iterations,
        converged: b.converged,
    }
}

// That of the damped part.
fn damped_result(h: Head, run: &HeldRun) -> OptimizationResult
    ensures { result ≡ Damped.result_of (damped_from h run.now) }
{
    let b = BestHead {
        initial_merit: h.initial_merit,
        final_merit: h.total_merit,
        iterations: h.iteration,
        converged: h.converged,
    };
    result_from(b, &run.surfaces, run.values, run.residuals)
}

// The best of all trials.
fn best_result(b: BestHead, best: &HeldBest) -> OptimizationResult
    ensures { result ≡ result_from b best.now }
{
    result_from(b, &best.surfaces, best.values, best.residuals)
}

// Annealing's: the polish's, with the first merit and the steps of the walk.
fn polished(h: RowHead, row: &HeldRow) -> OptimizationResult
    requires { (max_cooling_cycles_from row.now.job.counts ≤ 1000) × (steps_per_temperature_from row.now.job.counts ≤ 1000) × (h.damped.iteration ≤ 1000) }
    ensures { (a : Annealer) → a.config ≡ annealing_config (settings_from row.now.job.counts row.now.job.numbers) →
        result ≡ with_prior a h.best.initial_merit (Damped.result_of (damped_from h.damped row.now.run)) }
{
    let mut result = damped_result(h.damped, &row.run);
    result.initial_merit = h.best.initial_merit;
    let job = row.job.lent();
    let steps = job.max_cooling_cycles() * job.steps_per_temperature();
    result.iterations = steps + h.damped.iteration;
    result
}

// By kind.
pub(crate) fn result_of(row: &HeldRow) -> OptimizationResult
    requires { CountsWithin (job_of_row (row_from row.now)).method × ((row_from row.now).damped.iteration ≤ 1000) }
    ensures { result ≡ result_of (row_from row.now) }
{
    let h = row.head.numbers();
    // A kind stays a number: one that is none counts as annealing.
    match row.head.kind() {
        methods::DAMPED => damped_result(h.damped, &row.run),
        methods::MULTI_START => best_result(h.best, &row.best),
        _ => polished(h, row),
    }
}
