// Reads leaf lines and lines on small matrices from standard input to its end, and answers each on standard output as the oracle
// does, byte for byte; oracle/README.md has the formats. A line that is none of those is answered with `? `, its number, from 1,
// the field and what is wrong there. A line of blanks alone counts and has no answer, as there. The last line counts the lines.
// Stands on `floats`, `normal`, `jump` and `answers`; a program that only tests.
#![tactic(auto)]

ghost use Rattle.std.specs.Prelude.{◌≡◌};
ghost use Rattle.leaves.specs.Lines.{line_form, Answered};

mod leaf;
mod matrix;
mod names;
mod pieces;

use answers::ProvedProgram;
use names::Name;
use streams::console::Console;
use streams::output::Output;
use text::reader::{Reader, Wrong};

// No line leaves anything to the next.
#[derive(Clone, Copy)]
struct Leaves;

impl ProvedProgram for Leaves {
    ghost form = { line_form };

    ghost gives = { Answered };

    ghost sums = { λ p o n. n ≡ o };

    fn answer(&mut self, output: &mut Output, line: &[u8], _number: u64) -> Result<(), Wrong> {
        let reader = &mut Reader::new(line);
        match Name::of(reader.word())? {
            Name::Leaf(leaf) => leaf::answer(output, reader, leaf),
            Name::Solve => matrix::solve(output, reader),
            Name::Normal => matrix::normal(output, reader),
        }
    }

    fn sum_up(&self, _output: &mut Output) {}
}

fn main(rt: HostRuntime) {
    let console = Console {
        input: rt.stdin(),
        output: rt.stdout(),
        errors: rt.stderr(),
    };
    answers::answer_all_proved(&mut Leaves, console);
}
