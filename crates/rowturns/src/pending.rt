// What a turn of a row would work out.
ghost use Rattle.std.specs.Prelude.{◌≡◌, ℕ, ◌≤◌};
ghost use Rattle.merit.specs.Steps.{SlotsKnown};
ghost use Rattle.runs.specs.JobMerit.{evaluate_of};
ghost use Rattle.refusals.specs.Numbers.{numbered};
ghost use Rattle.held.specs.JobFrom.{surface_count_from, operand_count_from, operands_from, held_job};
ghost use Rattle.held.specs.RowFrom.{row_from};
ghost use Rattle.rowturns.specs.Next.{pending_of};

use crate::types::Pending;
use held::{HeldRow, LentJob, VariedJob};
use optics::OpticalSurface;
use refusals::Refusal;
use rows::turn_refusal;

// The merit of surfaces under a held job, worked out where they are laid flat.
fn merit_at(lens: [OpticalSurface; 16], job: LentJob) -> f64
    requires fact_1 { surface_count_from job.counts.now ≤ 16 }
    requires fact_2 { operand_count_from job.counts.now ≤ 12 }
    requires fact_3 { SlotsKnown (operands_from job.counts.now job.numbers.now) }
    ensures { (kind : ℕ) → result ≡ (evaluate_of (held_job job.entry.counts.now job.entry.numbers.now kind) lens).total_merit }
{
    let mut flat = [0.0; 64];
    optics::lay_flat(lens, job.surface_count(), &mut flat);
    let found = heldmerit::values_of(&flat, job);
    heldmerit::merit_of(&found, job)
}

// The surfaces whose merit comes next and that merit; or why the next turn, with scratch enough, is refused.
pub fn pending_of(row: &HeldRow) -> Result<Pending, Refusal>
    ensures { numbered result ≡ pending_of (row_from row.now) }
{
    turn_refusal(normal::SCRATCH, row)?;
    let kind = row.head.kind();
    let mut flat = [0.0; 64];
    let job = row.job.lent();
    turns::pending_surfaces(
        row.head.numbers(),
        kind,
        VariedJob { held: job },
        &row.run.surfaces,
        &row.run.params,
        &row.run.candidate,
        &mut flat,
    );
    let surfaces = held::stand(&flat);
    Ok(Pending {
        surfaces,
        merit: merit_at(surfaces, job),
    })
}
