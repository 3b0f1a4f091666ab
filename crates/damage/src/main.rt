// Damaged benches. The job lines of standard input are run to their ends; of the rows that the runs leave on the way, one
// entry at a time is set to a value that refusal 12 speaks of, and the calls are held to what they must answer: nothing is
// done but releasing. Prints for each entry how many rows were tried and how many were answered right. A line that is no such
// job is answered as the other programs do.
// Stands on `benchcalls`, `joblines`, `answers` and `same`; a program that only tests.
#![tactic(auto)]

ghost use Rattle.std.specs.Prelude.{◌≡◌};
ghost use Rattle.text.specs.Reader.{giving};
ghost use Rattle.streams.specs.Output.{Puts};
ghost use Rattle.damage.specs.Lines.{request_line, Tried};
ghost use Rattle.damage.specs.Tally.{tally_texts};

mod change;
mod deals;
mod entries;
mod examine;
mod limits;
mod range;
mod tally;
mod uses;
mod verdict;

use answers::ProvedProgram;
use jobs::JobRequest;
use streams::console::Console;
use streams::output::Output;
use tally::Tally;
use text::reader::{Reader, Wrong};

// What the lines so far have come to.
#[derive(Clone, Copy)]
struct Examined {
    tally: Tally,
}

// J id kind ..
fn read_whole(line: &[u8]) -> Result<JobRequest, Wrong>
    ensures { result ≡ request_line line.now }
{
    let mut reader = Reader::new(line);
    let kind = joblines::read_kind(&mut reader, 3)?;
    let job = joblines::read_job(&mut reader)?;
    let request = joblines::read_request(&mut reader, kind, job)?;
    reader.end()?;
    Ok(request)
}

impl ProvedProgram for Examined {
    ghost form = { λ line. giving tt (request_line line) };

    ghost gives = { Tried };

    ghost sums = { λ p o n. Puts o (tally_texts p.tally) n };

    // Nothing is put. A job that is refused is counted, and leaves no rows.
    fn answer(&mut self, output: &mut Output, line: &[u8], _number: u64) -> Result<(), Wrong> {
        let request = read_whole(line)?;
        let mut bench = benchcalls::empty_bench();
        match benchcalls::admit(&mut bench, 0, request) {
            Ok(()) => examine::examine_job(&mut self.tally, &bench, request),
            Err(_) => output.count(true),
        }
        Ok(())
    }

    fn sum_up(&self, output: &mut Output) {
        tally::put(output, &self.tally);
    }
}

fn main(rt: HostRuntime) {
    let console = Console {
        input: rt.stdin(),
        output: rt.stdout(),
        errors: rt.stderr(),
    };
    let mut examined = Examined { tally: tally::NONE };
    answers::answer_all_proved(&mut examined, console);
}
