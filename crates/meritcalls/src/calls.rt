// The two calls that stand alone: evaluating a lens and tracing it. Each fills what it is lent.
ghost use Rattle.std.specs.Prelude.{◌≡◌, ◌++◌, ◌-◌, ◌*◌, ◌≤◌, ◌&&◌, leb, eqb, length, replicate};
ghost use Rattle.floats.specs.Constants.{zero64};
ghost use Rattle.refusals.specs.Numbers.{answered, numbered};
ghost use Rattle.optics.specs.Flat.{laid_flat};
ghost use Rattle.optics.specs.Kept.{lens_counts_taken};
ghost use Rattle.merit.specs.Passing.{Evaluable, Traceable};
ghost use Rattle.merit.specs.OperandTable.{zero_evaluation};
ghost use Rattle.merit.specs.Calls.{evaluate_number, lens_evaluation, evaluated_as, trace_number, lens_trace, trace_answer, traced_rays};

use crate::checks::operands_taken;
use crate::evaluation::evaluate_flat;
use merit::{MeritEvaluation, MeritFunction, Traced};
use optics::{OpticalPrescription, OpticalSurface, ParaxialRay};
use refusals::Refusal;

fn counts_taken(prescription: OpticalPrescription, function: MeritFunction) -> bool
    ensures { result ≡ lens_counts_taken prescription.surface_count prescription.slot_count && leb function.operand_count 12 }
{
    optics::lens_counts_taken(prescription.surface_count, prescription.slot_count)
        && function.operand_count <= 12
}

// Whether an evaluation is refused.
#[tactic(auto, unfolding(merit::specs::Calls::evaluate_number))]
fn evaluation_refusal(
    prescription: OpticalPrescription,
    function: MeritFunction,
) -> Result<(), Refusal>
    ensures { answered result ≡ evaluate_number prescription function }
{
    Refusal::BadCount.unless(counts_taken(prescription, function))?;
    Refusal::BadLens.unless(optics::lens_taken(prescription))?;
    Refusal::BadOperand.unless(operands_taken(prescription.slot_count, function))
}

// The surfaces in use laid flat, zero past them.
fn laid(surfaces: [OpticalSurface; 16], count: usize) -> [f64; 64]
    requires { count ≤ 16 }
    ensures { result ≡ laid_flat surfaces count ++ replicate (64 - 4 * count) zero64 }
{
    let mut flat = [0.0; 64];
    optics::lay_flat(surfaces, count, &mut flat);
    flat
}

// The evaluation of a lens that is not refused.
fn lens_evaluation(prescription: OpticalPrescription, function: MeritFunction) -> MeritEvaluation
    requires { Evaluable prescription function }
    ensures { result ≡ lens_evaluation prescription function }
{
    let flat = laid(prescription.surfaces, prescription.surface_count);
    let lens = prescription.laid(&flat);
    evaluate_flat(&lens, function)
}

// The evaluation of a run before its first merit.
pub fn zero_evaluation() -> MeritEvaluation
    ensures { result ≡ zero_evaluation }
{
    MeritEvaluation {
        values: [0.0; 12],
        residuals: [0.0; 12],
        total_merit: 0.0,
    }
}

// The evaluation of a lens under its operands. Where it is refused, what is lent stays as it was.
pub fn evaluate(
    prescription: OpticalPrescription,
    function: MeritFunction,
    evaluation: &mut MeritEvaluation,
) -> Result<(), Refusal>
    ensures { (answered result ≡ evaluate_number prescription function) × (evaluation.new ≡ evaluated_as evaluation.old prescription function) }
{
    evaluation_refusal(prescription, function)?;
    *evaluation = lens_evaluation(prescription, function);
    Ok(())
}

fn row_taken(prescription: OpticalPrescription, length: usize) -> bool
    ensures { result ≡ lens_counts_taken prescription.surface_count prescription.slot_count && eqb length prescription.surface_count }
{
    optics::lens_counts_taken(prescription.surface_count, prescription.slot_count)
        && length == prescription.surface_count
}

// Whether a trace into a row of so many records is refused.
#[tactic(auto, unfolding(merit::specs::Calls::trace_number))]
pub fn trace_refusal(
    prescription: OpticalPrescription,
    slot: usize,
    length: usize,
) -> Result<(), Refusal>
    ensures { answered result ≡ trace_number prescription slot length }
{
    Refusal::BadCount.unless(row_taken(prescription, length))?;
    Refusal::BadLens.unless(optics::lens_taken(prescription))?;
    Refusal::BadOperand.unless(slot < prescription.slot_count)
}

// The trace of a slot that is neither refused nor failed.
fn fill_trace(prescription: OpticalPrescription, slot: usize, rays: &mut [ParaxialRay])
    requires { Traceable prescription slot (length rays.old) }
    ensures { rays.new ≡ lens_trace prescription slot }
{
    let flat = laid(prescription.surfaces, prescription.surface_count);
    let mut heights = [0.0; 16];
    let mut slopes = [0.0; 16];
    let lens = prescription.laid(&flat);
    lens.trace_heights(slot, &mut heights, &mut slopes);
    optics::fill_rays(rays, &heights, &slopes);
}

// The trace of a slot, as a row of one record per surface: unless it is done the row stays as it was.
pub fn trace(
    prescription: OpticalPrescription,
    slot: usize,
    rays: &mut [ParaxialRay],
) -> Result<Traced, Refusal>
    ensures { (numbered result ≡ trace_answer prescription slot (length rays.old)) × (rays.new ≡ traced_rays prescription slot rays.old) }
{
    trace_refusal(prescription, slot, rays.len())?;
    if prescription.surface_count < 2 {
        return Ok(Traced::Failed);
    }
    fill_trace(prescription, slot, rays);
    Ok(Traced::Done)
}
