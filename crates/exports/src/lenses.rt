// A lens by itself in numbers alone.
ghost use Rattle.std.specs.Prelude.{◌≡◌};
ghost use Rattle.refusals.specs.Numbers.{answered, numbered};
ghost use Rattle.exports.specs.Lenses.{lens_of, are_operands, evaluate_record_number, evaluated_record, number_of};

use jobs::JobRecord;
use merit::{MeritEvaluation, Traced};
use optics::OpticalPrescription;
use refusals::Refusal;

// Of the record only what a lens has is read: variables, operands and settings have no part in a trace.
pub(crate) fn lens_of(held: &JobRecord) -> OpticalPrescription
    ensures { result ≡ lens_of held.now }
{
    let surfaces = held.surfaces;
    let indices = held.indices;
    OpticalPrescription {
        surfaces,
        indices,
        surface_count: held.surface_count as usize,
        slot_count: held.slot_count as usize,
        entrance_pupil_diameter_mm: held.entrance_pupil_diameter_mm,
    }
}

// Whether each operand's number for a kind is one.
#[tactic(auto, unfolding(crate::specs::Lenses::are_operands, lists::specs::All::all_below))]
fn are_operands(held: JobRecord) -> bool
    ensures { result ≡ are_operands held }
{
    // the variables have no part in it
    let alone = JobRecord {
        variable_count: 0,
        ..held
    };
    held.operand_count <= 12 && jobs::known_kinds(alone)
}

// The evaluation of the record's lens under its operands. Where it is refused, what is lent stays as it was.
pub(crate) fn evaluate(held: JobRecord, evaluation: &mut MeritEvaluation) -> Result<(), Refusal>
    ensures { (answered result ≡ evaluate_record_number held) × (evaluation.new ≡ evaluated_record evaluation.old held) }
{
    if !are_operands(held) {
        return Err(Refusal::BadCount);
    }
    let job = jobs::job_of(1, held);
    meritcalls::evaluate(job.prescription, job.merit_function, evaluation)
}

// The number of a trace's answer.
#[tactic(auto, unfolding(crate::specs::Lenses::number_of))]
pub(crate) fn number_of(answer: Result<Traced, Refusal>) -> u32
    ensures { result ≡ number_of (numbered answer) }
{
    match answer {
        Ok(Traced::Done) => 0,
        Ok(Traced::Failed) => 100,
        Err(refusal) => refusal.number(),
    }
}
