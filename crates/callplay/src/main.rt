// Reads lines of calls from standard input to its end, and answers each on standard output as the oracle does, byte for byte;
// oracle/README.md has the formats. A line that is none of those is answered with `? `, its number, from 1, the field and what
// is wrong there. A line of blanks alone counts and has no answer, as there. The last line counts the lines.
// Stands on `benchcalls`, `joblines` and `answers`; a program that only tests.
#![tactic(auto)]

ghost use Rattle.std.specs.Prelude.{◌≡◌};
ghost use Rattle.text.specs.Reader.{giving};
ghost use Rattle.callplay.specs.Calls.{Done};
ghost use Rattle.callplay.specs.Lines.{call_of};

mod answer;
mod call;
mod pieces;

use answers::ProvedProgram;
use bench::Bench;
use call::Call;
use streams::console::Console;
use streams::output::Output;
use text::reader::{Reader, Wrong};

// The bench as the calls so far have left it.
#[derive(Clone, Copy)]
struct Played {
    bench: Bench,
}

impl ProvedProgram for Played {
    ghost form = { λ line. giving tt (call_of line) };

    ghost gives = { Done };

    ghost sums = { λ p o n. n ≡ o };

    fn answer(&mut self, output: &mut Output, line: &[u8], _number: u64) -> Result<(), Wrong> {
        let call = Call::read(&mut Reader::new(line))?;
        answer::answer(output, &mut self.bench, call);
        Ok(())
    }

    fn sum_up(&self, _output: &mut Output) {}
}

fn main(rt: HostRuntime) {
    let console = Console {
        input: rt.stdin(),
        output: rt.stdout(),
        errors: rt.stderr(),
    };
    let mut played = Played {
        bench: benchcalls::empty_bench(),
    };
    answers::answer_all_proved(&mut played, console);
}
