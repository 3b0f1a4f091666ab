// Pieces of answers.
ghost use Rattle.std.specs.Prelude.{nat_lt};
ghost use Rattle.streams.specs.Output.{Puts, with_refused};
ghost use Rattle.answers.specs.Pieces.{number_texts};
ghost use Rattle.callplay.specs.Answers.{call_texts, line_end};

use streams::output::Output;

// A call's name and its number.
pub(crate) fn put_name(output: &mut Output, name: &[u8], number: u32)
    ensures { Puts (with_refused (nat_lt 0 number) output.old) (number_texts name.now number) output.new }
{
    output.count(number > 0);
    answers::put_number(output, name, number as u64);
}

// name number {more}
pub(crate) fn put_answer(output: &mut Output, name: &[u8], number: u32, more: &[u64])
    ensures { Puts (with_refused (nat_lt 0 number) output.old) (call_texts name.now number more.now) output.new }
{
    put_name(output, name, number);
    for x in more {
        answers::put_number(output, b"", *x);
    }
    end_line(output);
}

pub(crate) fn end_line(output: &mut Output)
    ensures { Puts output.old line_end output.new }
{
    output.put(b"\n");
}
