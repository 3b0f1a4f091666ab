// Job lines of kind 5: a lens traced in one slot.
ghost use Rattle.std.specs.Prelude.{◌≡◌, [], OnOk, OnErr};
ghost use Rattle.answers.specs.Heads.{head_texts};
ghost use Rattle.answers.specs.Lines.{whole};
ghost use Rattle.replay.specs.Replies.{Tells};
ghost use Rattle.replay.specs.Lines.{slot_from};

use crate::marks;
use joblines::JobLine;
use merit::Traced;
use optics::{OpticalPrescription, ParaxialProperties, ParaxialRay};
use refusals::Refusal;
use streams::output::Output;
use text::reader::{Reader, Wrong};

// Kind 5 has a slot as its setting.
pub(crate) fn answer(output: &mut Output, reader: &mut Reader, job: JobLine) -> Result<(), Wrong>
    ensures value { result ≡ whole reader.old.line.now (slot_from reader.old.line.now reader.old.at) }
    ensures ok { OnOk result (Tells (head_texts reader.old.line.now 5) output.old output.new) }
    ensures err { OnErr result (output.new ≡ output.old) }
{
    let slot = reader.decimal()? as usize;
    reader.end()?;
    answers::put_head(output, reader.line, 5);
    put_trace(output, job.prescription, slot);
    Ok(())
}

fn put_trace(output: &mut Output, prescription: OpticalPrescription, slot: usize)
    ensures { Tells [] output.old output.new }
{
    let count = prescription.surface_count;
    let t = lending::trace_over(prescription, slot, marks::marked_rays(), count);
    let is_kept = marks::are_marked(&t.rays);
    match t.answer {
        Err(refusal) => answers::put_refused(output, refusal.number(), is_kept),
        Ok(Traced::Failed) => lensanswers::put_failed(output, is_kept),
        Ok(Traced::Done) => put_done(output, prescription, slot, t.rays),
    }
}

// ok T n {height slope} P ..
fn put_done(
    output: &mut Output,
    prescription: OpticalPrescription,
    slot: usize,
    rays: [ParaxialRay; 16],
)
    ensures { Tells [] output.old output.new }
{
    let count = prescription.surface_count;
    if !marks::are_marked(&rays[count.min(16)..]) || !are_others_refused(prescription, slot) {
        output.put(b" changed\n");
        return;
    }
    lensanswers::put_traced(output, rays, count);
    if let Some(properties) = paraxial(prescription, slot) {
        lensanswers::put_paraxial(output, properties);
    }
}

// Whether a row of every other length gives 1, and stays as it was.
fn are_others_refused(prescription: OpticalPrescription, slot: usize) -> bool {
    let count = prescription.surface_count;
    (0..17).all(|length| length == count || is_refused(prescription, slot, length))
}

fn is_refused(prescription: OpticalPrescription, slot: usize, length: usize) -> bool {
    let t = lending::trace_over(prescription, slot, marks::marked_rays(), length);
    matches!(t.answer, Err(Refusal::BadCount)) && marks::are_marked(&t.rays)
}

// The lens in one slot, where both are within the limits.
fn paraxial(prescription: OpticalPrescription, slot: usize) -> Option<ParaxialProperties> {
    let count = prescription.surface_count;
    if count > 16 || slot > 3 {
        return None;
    }
    let mut flat = [0.0; 64];
    optics::lay_flat(prescription.surfaces, count, &mut flat);
    prescription.laid(&flat).paraxial(slot)
}
