// Job lines of kinds 1 to 3, played on a bench. A job that was played is admitted to its place once more, so that it takes
// turns while the jobs of the next three lines are played.
ghost use Rattle.std.specs.Prelude.{◌<◌, []};
ghost use Rattle.replay.specs.Replies.{Tells};
ghost use Rattle.replay.specs.Moves.{Moves};

use crate::play;
use crate::play::Turns;
use bench::Bench;
use jobs::JobRequest;
use refusals::Refusal;
use streams::output::Output;

// Plays the job at the place, and leaves it there at its start.
pub(crate) fn answer(output: &mut Output, bench: &mut Bench, place: usize, request: JobRequest)
    requires { place < 4 }
    ensures answer { Tells [] output.old output.new }
    ensures moved { Moves bench.old bench.new }
{
    if let Err(refusal) = admit(bench, place, request) {
        answers::put_refused(output, refusal.number(), true);
        return;
    }
    let turns = play::play(bench, place);
    put_played(output, bench, place, turns, request);
    let _ = admit(bench, place, request);
}

// Admits the job to the place, from which another's may have to go.
fn admit(bench: &mut Bench, place: usize, request: JobRequest) -> Result<(), Refusal>
    ensures { Moves bench.old bench.new }
{
    benchcalls::release(bench, place);
    benchcalls::admit(bench, place, request)
}

// M first final N iterations converged turns S .. V .. D .. H digest
fn put_played(output: &mut Output, bench: &Bench, place: usize, turns: Turns, request: JobRequest)
    ensures { Tells [] output.old output.new }
{
    let mut found = rows::zero_result();
    let number = benchcalls::fetch(bench, place, &mut found);
    if number > 0 {
        answers::put_refused(output, number, true);
        return;
    }
    answers::put_outcome(output, found);
    answers::put_number(output, b"", turns.count);
    answers::put_lens(
        output,
        found,
        request.prescription.surface_count,
        request.merit_function.operand_count,
    );
    answers::put_digest(output, turns.hash);
}
