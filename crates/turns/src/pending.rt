// The surfaces whose merit comes next, by kind and phase, laid where it is worked out.
ghost use Rattle.std.specs.Prelude.{◌≡◌, ◌≤◌, ◌<◌, length};
ghost use Rattle.variables.specs.Active.{num_active};
ghost use Rattle.runs.specs.AnnealingRow as Annealing;
ghost use Rattle.runs.specs.Rows.{pending_by};
ghost use Rattle.held.specs.JobFrom.{standing};
ghost use Rattle.held.specs.declared.types.HeldBest.{HeldBest};
ghost use Rattle.held.specs.declared.types.HeldRun.{HeldRun};
ghost use Rattle.held.specs.RowFrom.{state_from};
ghost use Rattle.held.specs.Standing.{Behind};
ghost use Rattle.dls.specs.RunWith.{run_with};
ghost use Rattle.draws.specs.Parts.{ForAnnealer};
ghost use Rattle.held.specs.JobOf.{variables_of, job_of};

use held::{RowHead, VariedJob};
use runs::{methods, phases};

// Annealing: the base, a step's trial, or the polish's.
#[tactic(auto, unfolding(runs::specs::AnnealingRow::pending, runs::specs::AnnealingRow::pending_at, runs::specs::AnnealingRow::phase_of))]
fn pending_annealing(
    h: RowHead,
    job: VariedJob,
    surfaces: &[f64; 64],
    params: &[f64; 8],
    candidate: &[f64; 8],
    flat: &mut [f64],
)
    requires fact_1 { h.damped.column < num_active (variables_of job.held) }
    requires fact_2 { 64 ≤ length flat.old }
    ensures fact_1 { ForAnnealer (variables_of job.entry.held) (λ a. (run : HeldRun) (best : HeldBest) →
        standing flat.new ≡ Annealing.pending a (state_from h (run_with surfaces.now params.now candidate.now run) best)) }
    ensures fact_2 { Behind flat.old flat.new }
{
    match h.damped.phase {
        phases::WALK_FIRST => held::copy(surfaces, flat),
        phases::WALK => held::lay_applied(job, *candidate, surfaces, flat),
        _ => {
            let config = defaults::polish_settings();
            dls::pending_damped(h.damped, config, job, surfaces, params, candidate, flat)
        }
    }
}

pub fn pending_surfaces(
    h: RowHead,
    kind: u64,
    job: VariedJob,
    surfaces: &[f64; 64],
    params: &[f64; 8],
    candidate: &[f64; 8],
    flat: &mut [f64],
)
    requires fact_1 { h.damped.column < num_active (variables_of job.held) }
    requires fact_2 { 64 ≤ length flat.old }
    ensures fact_1 { ((run : HeldRun) (best : HeldBest) →
        let j = job_of job.entry.held kind in
        standing flat.new ≡ pending_by j.method j (state_from h (run_with surfaces.now params.now candidate.now run) best)) }
    ensures fact_2 { Behind flat.old flat.new }
{
    match kind {
        methods::DAMPED | methods::MULTI_START => {
            let config = job.held.dls_config();
            dls::pending_damped(h.damped, config, job, surfaces, params, candidate, flat)
        }
        _ => pending_annealing(h, job, surfaces, params, candidate, flat),
    }
}
