// Reads job lines from standard input to its end, and answers each on standard output as the oracle does, byte for byte;
// oracle/README.md has the formats. A line that is none of those is answered with `? `, its number, from 1, the field and what
// is wrong there. A line of blanks alone counts and has no answer, as there. The last line counts the lines.
// Stands on `benchcalls`, `lending`, `intervals`, `joblines`, `answers` and `lensanswers`; a program that only tests.
#![tactic(auto)]

ghost use Rattle.std.specs.Prelude.{◌≡◌, OnOk, OnErr};
ghost use Rattle.answers.specs.Lines.{whole};
ghost use Rattle.replay.specs.Lines.{job_form, settings_from, Done, Answered};

mod evaluate;
mod limits;
mod marks;
mod play;
mod run;
mod trace;

use answers::ProvedProgram;
use bench::Bench;
use joblines::JobLine;
use streams::console::Console;
use streams::output::Output;
use text::reader::{Reader, Wrong};

// The bench that the jobs are played on.
#[derive(Clone, Copy)]
struct Replay {
    bench: Bench,
}

impl Replay {
    // The settings of a kind, and the answer to its line.
    #[tactic(auto, unfolding(crate::specs::Lines::settings_from))]
    fn answer_job(
        &mut self,
        output: &mut Output,
        reader: &mut Reader,
        kind: u64,
        job: JobLine,
        number: u64,
    ) -> Result<(), Wrong>
        ensures value { let line = reader.old.line.now in result ≡ whole line (settings_from kind job line reader.old.at) }
        ensures ok { OnOk result (Done kind self.old output.old reader.old.line.now self.new output.new) }
        ensures err { OnErr result ((self.new ≡ self.old) × (output.new ≡ output.old)) }
    {
        match kind {
            4 => evaluate::answer(output, reader, job),
            5 => trace::answer(output, reader, job),
            6 => limits::answer(output, reader, job),
            _ => {
                let request = joblines::read_request(reader, kind, job)?;
                reader.end()?;
                // Each line has the place of its number.
                let place = (number % 4) as usize;
                answers::put_head(output, reader.line, kind);
                run::answer(output, &mut self.bench, place, request);
                Ok(())
            }
        }
    }
}

// J id kind ..: runs are played on the bench, evaluations and traces stand by themselves.
impl ProvedProgram for Replay {
    ghost form = { job_form };

    ghost gives = { Answered };

    ghost sums = { λ p o n. n ≡ o };

    fn answer(&mut self, output: &mut Output, line: &[u8], number: u64) -> Result<(), Wrong> {
        let reader = &mut Reader::new(line);
        let kind = joblines::read_kind(reader, 6)?;
        let job = joblines::read_job(reader)?;
        self.answer_job(output, reader, kind, job, number)
    }

    fn sum_up(&self, _output: &mut Output) {}
}

fn main(rt: HostRuntime) {
    let console = Console {
        input: rt.stdin(),
        output: rt.stdout(),
        errors: rt.stderr(),
    };
    let mut replay = Replay {
        bench: benchcalls::empty_bench(),
    };
    answers::answer_all_proved(&mut replay, console);
}
