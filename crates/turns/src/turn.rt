// A turn of a row that is not refused.
ghost use Rattle.std.specs.Prelude.{◌≡◌, true, ◌≤◌, ◌<◌, length};
ghost use Rattle.normal.specs.Layout.{scratch_length};
ghost use Rattle.variables.specs.Active.{num_active};
ghost use Rattle.jobs.specs.Checks.{job_taken};
ghost use Rattle.dls.specs.DampedSteps.{ScratchKept};
ghost use Rattle.held.specs.JobOf.{variables_of, job_of};
ghost use Rattle.held.specs.RowFrom.{state_from};
ghost use Rattle.turns.specs.Turned.{turned_by};

use crate::advance::advance_run;
use crate::pending::pending_surfaces;
use held::{CountedJob, HeldBest, HeldRun, LentJob, RowHead, VariedJob};

// The surfaces pending are laid at the start of scratch and evaluated there, and the run goes on with what was found.
pub fn turned(
    h: RowHead,
    kind: u64,
    job: LentJob,
    run: &mut HeldRun,
    best: &mut HeldBest,
    scratch: &mut [f64],
) -> RowHead
    requires fact_1 { scratch_length ≤ length scratch.old }
    requires fact_2 { job_taken (job_of job kind) ≡ true }
    requires fact_3 { h.damped.column < num_active (variables_of job) }
    ensures fact_1 { state_from result run.new best.new ≡ turned_by (job_of job.entry kind) (state_from h run.old best.old) }
    ensures fact_2 { ScratchKept scratch.old scratch.new }
{
    let counted = CountedJob { held: job };
    pending_surfaces(
        h,
        kind,
        VariedJob { held: job },
        &run.surfaces,
        &run.params,
        &run.candidate,
        scratch,
    );
    let found = heldmerit::values_of(scratch, job);
    advance_run(h, kind, counted, &found, run, best, scratch)
}
