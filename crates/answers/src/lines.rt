// The lines of the input, answered one after the other by a program.
ghost use Rattle.std.specs.Prelude.{◌≡◌, ◌≤◌, ◌&&◌, length, IfSome, OnOk, OnErr};
ghost use Rattle.streams.specs.Input.{is_open};
ghost use Rattle.streams.specs.declared.output.Output.{Output};
ghost use Rattle.answers.specs.Lines.{LineForm, Giving, LineAnswered, FoundAnswered, stand, Step, LinesAnswered, AllAnswered};

use crate::pieces::{put_cut, put_unknown};
use streams::console::Console;
use streams::input;
use streams::input::{Input, Line};
use streams::output::Output;
use text::reader::Wrong;
use text::words;

// What a program does with a line.
pub trait ProvedProgram {
    // Whether a line is in form, and where it is not and why.
    ghost form: { LineForm };

    // What the answer to a line in form makes of the program and of the output.
    ghost gives: { Giving Self };

    // What comes after the answers to all lines.
    ghost sums: { Self → Output → Output → Type 0 };

    // Answers a line that is not blank. Of a line that is out of form it says where that is, puts nothing and changes nothing.
    fn answer(&mut self, output: &mut Output, line: &[u8], number: u64) -> Result<(), Wrong>
        ensures value { result ≡ form line.now }
        ensures ok { OnOk result (gives self.old output.old line.now number self.new output.new) }
        ensures err { OnErr result ((self.new ≡ self.old) × (output.new ≡ output.old)) };

    // Puts what comes after the answers to all lines.
    fn sum_up(&self, output: &mut Output)
        ensures { sums self.now output.old output.new };
}

// Answers one line. Blanks alone have no answer.
fn answer_line<P: ProvedProgram>(program: &mut P, output: &mut Output, line: &[u8], number: u64)
    ensures { LineAnswered P.form P.gives program.old output.old line.now number program.new output.new }
{
    if words::is_end(line, 0) {
        return;
    }
    if let Err(wrong) = program.answer(output, line, number) {
        put_unknown(output, line, number, wrong);
    }
}

// Answers a line of the input; while none is there, what waits is written.
fn answer_found<P: ProvedProgram>(
    program: &mut P,
    output: &mut Output,
    buf: &[u8],
    line: Option<Line>,
)
    requires { IfSome line (λ l. (l.from ≤ l.to) × (l.to ≤ length buf.now)) }
    ensures { FoundAnswered P.form P.gives program.old output.old line buf.now program.new output.new }
{
    let Some(line) = line else {
        output.flush();
        return;
    };
    if line.is_cut {
        put_cut(output, line.number);
        return;
    }
    answer_line(program, output, &buf[line.from..line.to], line.number);
}

// Answers the next line of the input; then the input goes on behind it, or by a read.
fn answer_next<P: ProvedProgram>(
    program: &mut P,
    console: Console,
    output: &mut Output,
    buf: &mut [u8],
    input: Input,
) -> Input
    requires from_le_to { input.from ≤ input.to }
    requires to_in_bounds { input.to ≤ length buf.old }
    ensures step { Step P.form P.gives (stand program.old output.old buf.old input) (stand program.new output.new buf.new result) }
    ensures within { (result.from ≤ result.to) × (result.to ≤ length buf.new) }
{
    let found = input::next_line(buf, input);
    answer_found(program, output, buf, found.line);
    input::go_on(console, buf, found)
}

// Whether a line may come and no write failed.
fn goes_on(output: &Output, input: Input) -> bool
    ensures { result ≡ (is_open input && output.now.waiting.is_good) }
{
    input.is_open() && output.waiting.is_good
}

// Answers line after line, up to where none may come any more or a write failed. A proved loop has to end, and nothing says that
// the input does: so the steps are counted, up to a number that no run reaches.
fn answer_lines<P: ProvedProgram>(
    program: &mut P,
    console: Console,
    output: &mut Output,
    buf: &mut [u8],
    mut input: Input,
) -> Input
    requires from_le_to { input.from ≤ input.to }
    requires to_in_bounds { input.to ≤ length buf.old }
    ensures { LinesAnswered P.form P.gives (stand program.old output.old buf.old input) (stand program.new output.new buf.new result) }
{
    for _ in 0..u64::MAX {
        if !goes_on(output, input) {
            break;
        }
        input = answer_next(program, console, output, buf, input);
    }
    input
}

// Answers all lines of the input, and puts what comes after the answers.
pub fn answer_all_proved<P: ProvedProgram>(program: &mut P, console: Console)
    ensures { AllAnswered P.form P.gives P.sums console program.old program.new }
{
    let mut buf = io::large_buffer();
    let mut out = io::large_buffer();
    let mut output = Output::new(console, &mut out);
    let input = answer_lines(program, console, &mut output, &mut buf, Input::new());
    program.sum_up(&mut output);
    output.finish(input);
}
