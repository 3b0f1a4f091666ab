// The lines of the input, answered by a program of which nothing is said.
ghost use Rattle.streams.specs.declared.output.Output.{Output};
ghost use Rattle.answers.specs.OwnLines.{every_line, anything, OwnAnswered};

use crate::lines::{ProvedProgram, answer_all_proved};
use crate::pieces::put_unknown;
use streams::console::Console;
use streams::output::Output;
use text::reader::{Reader, Wrong};

// What a program does with a line.
pub trait Program {
    // Answers a line that is not blank. Of a line that is out of form it says where that is, and puts nothing.
    fn answer(
        &mut self,
        output: &mut Output,
        reader: &mut Reader,
        number: u64,
    ) -> Result<(), Wrong>;

    // Puts what comes after the answers to all lines.
    fn sum_up(&self, _output: &mut Output) {}
}

// A program of which nothing is said, as one to which each line is in form: it tells itself where one is not.
#[derive(Drop)]
struct Own<'a, P: Program> {
    program: &'a mut P,
}

impl<'a, P: Program> ProvedProgram for Own<'a, P> {
    ghost form = { every_line };

    ghost gives = { λ p o line number q n. Unit {0} };

    ghost sums = { λ p o n. Unit {0} };

    fn answer(&mut self, output: &mut Output, line: &[u8], number: u64) -> Result<(), Wrong> {
        let mut reader = Reader::new(line);
        if let Err(wrong) = self.program.answer(output, &mut reader, number) {
            put_unknown(output, line, number, wrong);
        }
        Ok(())
    }

    fn sum_up(&self, output: &mut Output) {
        self.program.sum_up(output);
    }
}

// Answers all lines of the input, and puts what comes after the answers.
pub fn answer_all<P: Program>(program: &mut P, console: Console)
    ensures { OwnAnswered console }
{
    answer_all_proved(&mut Own { program }, console);
}
