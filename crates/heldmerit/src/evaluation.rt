// The values of all operands, the merit and the residuals.
ghost use Rattle.std.specs.Prelude.{◌≡◌, List, ◌++◌, ℕ, ◌*◌, ◌≤◌, Float, length};
ghost use Rattle.optics.specs.Flat.{laid_flat};
ghost use Rattle.merit.specs.Steps.{SlotsKnown};
ghost use Rattle.runs.specs.JobMerit.{evaluate_of};
ghost use Rattle.runs.specs.Run.{Surfaces};
ghost use Rattle.held.specs.JobFrom.{surface_count_from, operand_count_from, operands_from, held_job};
ghost use Rattle.heldmerit.specs.HeldOver.{merit_over, residuals_over};

use held::LentJob;
use merit::WeightRoot;
use optics::{FlatSurfaces, LaidLens};

// The values of surfaces laid flat: all slots are traced in one pass over them. These three ask for the operands alone, and not for the variables as
// `CountedJob` does.
pub fn values_of<'a>(flat: &'a [f64], job: LentJob<'a>) -> [f64; 12]
    requires fact_1 { 4 * surface_count_from job.counts.now ≤ length flat.now }
    requires fact_2 { surface_count_from job.counts.now ≤ 16 }
    requires fact_3 { operand_count_from job.counts.now ≤ 12 }
    requires fact_4 { SlotsKnown (operands_from job.counts.now job.numbers.now) }
    ensures { (kind : ℕ) (s : Surfaces) (rest : List Float) → flat.now ≡ laid_flat s (surface_count_from job.entry.counts.now) ++ rest
        → result ≡ (evaluate_of (held_job job.entry.counts.now job.entry.numbers.now kind) s).values }
{
    let count = job.surface_count();
    let many = job.operand_count();
    let lens = LaidLens {
        surfaces: FlatSurfaces { flat, count },
        indices: job.indices(),
        pupil: job.pupil(),
    };
    let slots = lens.paraxial_slots();
    let mut values = [0.0; 12];
    for n in 0..many {
        let o = job.operand_at(n);
        values[n] = meritcalls::value_of(o.operand_type, slots, &lens.surfaces, values);
    }
    values
}

// The merit of surfaces that have these values.
pub fn merit_of(values: &[f64; 12], job: LentJob) -> f64
    requires { operand_count_from job.counts.now ≤ 12 }
    ensures { result ≡ merit_over job.entry.counts.now job.entry.numbers.now values.now }
{
    let many = job.operand_count();
    let mut total = 0.0;
    for n in 0..many {
        let o = job.operand_at(n);
        let d = meritcalls::difference_of(o, values[n]);
        total = total + o.weight * d * d;
    }
    meritcalls::counted_total(total)
}

// Their residuals: a root is worked out once where neighbouring weights are equal.
pub fn residuals_of(values: &[f64; 12], job: LentJob) -> [f64; 12]
    requires { operand_count_from job.counts.now ≤ 12 }
    ensures { result ≡ residuals_over job.entry.counts.now job.entry.numbers.now values.now }
{
    let many = job.operand_count();
    let mut residuals = [0.0; 12];
    let mut known = WeightRoot {
        weight: 1.0,
        root: 1.0,
    };
    for n in 0..many {
        let o = job.operand_at(n);
        let d = meritcalls::difference_of(o, values[n]);
        known = meritcalls::root_of(known, o.weight);
        residuals[n] = known.root * d;
    }
    residuals
}
