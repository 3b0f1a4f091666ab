// Job lines of kind 6: a lens traced in one slot, its thicknesses within limits.
ghost use Rattle.std.specs.Prelude.{◌≡◌, OnOk, OnErr};
ghost use Rattle.answers.specs.Heads.{head_texts};
ghost use Rattle.answers.specs.Lines.{whole};
ghost use Rattle.replay.specs.Replies.{Tells};
ghost use Rattle.replay.specs.Lines.{within_limits_from};

use joblines::JobLine;
use streams::output::Output;
use text::reader::{Reader, Wrong};

// Kind 6 has a slot and a pair for each surface as its settings.
pub(crate) fn answer(output: &mut Output, reader: &mut Reader, job: JobLine) -> Result<(), Wrong>
    ensures value { result ≡ whole reader.old.line.now (within_limits_from job.prescription.surface_count reader.old.line.now reader.old.at) }
    ensures ok { OnOk result (Tells (head_texts reader.old.line.now 6) output.old output.new) }
    ensures err { OnErr result (output.new ≡ output.old) }
{
    let prescription = job.prescription;
    let count = prescription.surface_count;
    let read = joblines::read_limits(reader, count)?;
    reader.end()?;
    answers::put_head(output, reader.line, 6);
    match intervalcalls::limits_traced(prescription, read.limits, read.slot) {
        Ok(traced) => lensanswers::put_limits(output, traced, count),
        Err(refusal) => answers::put_refused(output, refusal.number(), true),
    }
    Ok(())
}
