// Pieces of answers.
ghost use Rattle.std.specs.Prelude.{[], ◌∷◌};
ghost use Rattle.streams.specs.Output.{Puts, blank, hex_text};
ghost use Rattle.leaves.specs.Lines.{line_texts};
ghost use Rattle.leaves.specs.Replies.{line_end};

use streams::output::Output;

// A line that is in form, up to its answer.
pub(crate) fn put_line(output: &mut Output, line: &[u8])
    ensures { Puts output.old (line_texts line.now) output.new }
{
    output.put(line);
    output.put(b" =");
}

// A blank and a state.
pub(crate) fn put_state(output: &mut Output, x: u64)
    ensures { Puts output.old (blank ∷ hex_text x ∷ []) output.new }
{
    output.put(b" ");
    output.put_hex(x);
}

pub(crate) fn end_line(output: &mut Output)
    ensures { Puts output.old line_end output.new }
{
    output.put(b"\n");
}
