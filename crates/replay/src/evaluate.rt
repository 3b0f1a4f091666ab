// Job lines of kind 4: a lens evaluated under its operands.
ghost use Rattle.std.specs.Prelude.{◌≡◌, [], OnOk, OnErr};
ghost use Rattle.text.specs.Reader.{end_from};
ghost use Rattle.answers.specs.Heads.{head_texts};
ghost use Rattle.replay.specs.Replies.{Tells};

use crate::marks;
use joblines::JobLine;
use streams::output::Output;
use text::reader::{Reader, Wrong};

// Kind 4 has no settings.
pub(crate) fn answer(output: &mut Output, reader: &mut Reader, job: JobLine) -> Result<(), Wrong>
    ensures value { result ≡ end_from reader.old.line.now reader.old.at }
    ensures ok { OnOk result (Tells (head_texts reader.old.line.now 4) output.old output.new) }
    ensures err { OnErr result (output.new ≡ output.old) }
{
    reader.end()?;
    answers::put_head(output, reader.line, 4);
    put_evaluated(output, job);
    Ok(())
}

fn put_evaluated(output: &mut Output, job: JobLine)
    ensures { Tells [] output.old output.new }
{
    let prescription = job.prescription;
    let function = job.merit_function;
    let e = lending::evaluate_over(prescription, function, marks::marked_evaluation());
    if let Err(refusal) = e.answer {
        let is_kept = marks::is_marked(e.evaluation);
        answers::put_refused(output, refusal.number(), is_kept);
        return;
    }
    let hash = answers::with_surfaces(
        answers::START,
        prescription.surfaces,
        prescription.surface_count,
    );
    lensanswers::put_evaluation(output, e.evaluation, function.operand_count);
    let hash = answers::with_float(hash, e.evaluation.total_merit);
    answers::put_digest(output, hash);
}
