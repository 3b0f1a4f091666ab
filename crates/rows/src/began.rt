// The row that a run begins in, just before its first merit: "Admission does no evaluation".
ghost use Rattle.std.specs.Prelude.{◌≡◌};
ghost use Rattle.jobs.specs.Records.{kind_of};
ghost use Rattle.runs.specs.Zeros.{zero_params};
ghost use Rattle.runs.specs.DampedRow.{holding};
ghost use Rattle.runs.specs.State.{row_of, alone};
ghost use Rattle.runs.specs.Rows as Rows;

use crate::zeros::zero_result;
use jobs::{Job, JobRecord, Method};
use optics::OpticalSurface;
use runs::{DampedState, Row, methods, phases};

// A damped part of these surfaces in this phase: all else is zero.
fn beginning(phase: u64, surfaces: [OpticalSurface; 16]) -> DampedState
    ensures { result ≡ holding phase surfaces zero_params zero_params }
{
    let evaluation = meritcalls::zero_evaluation();
    DampedState {
        surfaces,
        jacobian: [0.0; 96],
        evaluation,
        plus_residuals: [0.0; 12],
        params: [0.0; 8],
        candidate: [0.0; 8],
        initial_merit: 0.0,
        damping: 0.0,
        phase,
        iteration: 0,
        column: 0,
        attempt: 0,
        converged: 0,
    }
}

// A row with no turn taken, whose state has the damped part alone.
fn fresh(record: JobRecord, kind: u64, damped: DampedState) -> Row
    ensures { result ≡ row_of «record» kind 0 (alone damped) }
{
    let best = zero_result();
    Row {
        job: record,
        damped,
        best,
        kind,
        turns: 0,
        generator: 0,
        trial: 0,
        cycle: 0,
        step: 0,
        temperature: 0.0,
        current_merit: 0.0,
    }
}

// `record` is the job in numbers.
pub(crate) fn began(record: JobRecord, job: Job) -> Row
    ensures { result ≡ row_of «record» (kind_of job) 0 (Rows.began job.method job) }
{
    let base = job.prescription.surfaces;
    let method = job.method;
    match method {
        Method::Damped(_) => {
            let damped = beginning(phases::FIRST, base);
            fresh(record, methods::DAMPED, damped)
        }
        Method::MultiStart(config) => {
            let damped = beginning(phases::FIRST, base);
            let mut row = fresh(record, methods::MULTI_START, damped);
            row.generator = xorshift::Rng64::new(config.seed).state;
            row
        }
        Method::Annealing(_) => {
            let damped = beginning(phases::WALK_FIRST, base);
            fresh(record, methods::ANNEALING, damped)
        }
    }
}
