// The calls, done on the bench, and what is put of each.
ghost use Rattle.std.specs.Prelude.{◌≡◌, nat_lt};
ghost use Rattle.bench.specs.Calls.{fetch_number};
ghost use Rattle.streams.specs.Output.{Puts, with_refused};
ghost use Rattle.answers.specs.Lines.{counted};
ghost use Rattle.callplay.specs.Answers.{fetch_texts, list_texts};
ghost use Rattle.callplay.specs.Calls.{bench_after, count_of, answer_texts};

use crate::call::Call;
use crate::pieces;
use bench::Bench;
use streams::output::Output;

// As much of scratch as there is here: past that more would change nothing.
const SCRATCH: usize = 1024;

#[tactic(auto, unfolding(crate::specs::Calls::bench_after, crate::specs::Calls::count_of, crate::specs::Calls::answer_texts))]
pub(crate) fn answer(output: &mut Output, bench: &mut Bench, call: Call)
    ensures bench { bench.new ≡ bench_after call bench.old }
    ensures answer { Puts (counted (count_of call bench.old) output.old) (answer_texts call bench.old) output.new }
{
    match call {
        Call::Empty => {
            *bench = benchcalls::empty_bench();
            output.put(b"Z\n");
        }
        Call::Admit { place, request } => {
            let number = refusals::answered(benchcalls::admit(bench, place, request));
            pieces::put_answer(output, b"A", number, &[]);
        }
        Call::Turn { place, room, turns } => {
            let mut scratch = [0.0; SCRATCH];
            let to = room.min(SCRATCH);
            let played = benchcalls::play_turns(bench, place, turns, &mut scratch[..to]);
            let number = refusals::answered(played.answer);
            pieces::put_answer(output, b"T", number, &[played.taken]);
        }
        Call::Release { place } => {
            let number = benchcalls::release(bench, place);
            pieces::put_answer(output, b"D", number, &[]);
        }
        Call::Deal { turns, room } => {
            let mut scratch = [0.0; SCRATCH];
            let to = room.min(SCRATCH);
            let dealt = benchcalls::deal(bench, turns, &mut scratch[..to]);
            let more = [dealt.dealt as u64, bench.next_place as u64];
            pieces::put_answer(output, b"N", dealt.number, &more);
        }
        Call::Fetch { place } => put_fetched(output, bench, place),
        Call::List => put_finished(output, bench),
    }
}

// F number result
fn put_fetched(output: &mut Output, bench: &Bench, place: usize)
    ensures { Puts (with_refused (nat_lt 0 (fetch_number bench.now place)) output.old) (fetch_texts bench.now place) output.new }
{
    let mut found = rows::zero_result();
    let number = benchcalls::fetch(bench, place, &mut found);
    pieces::put_name(output, b"F", number);
    if number > 0 {
        pieces::end_line(output);
        return;
    }
    answers::put_outcome(output, found);
    let job = bench.rows[place % 4].job.lent();
    let surfaces = job.surface_count();
    let operands = job.operand_count();
    answers::put_lens(output, found, surfaces, operands);
    pieces::end_line(output);
}

// L count {place}, in the order that the call gave
fn put_finished(output: &mut Output, bench: &Bench)
    ensures { Puts output.old (list_texts bench.now) output.new }
{
    let finished = benchcalls::finished_places(bench);
    let n = finished.count.min(4);
    answers::put_number(output, b"L", finished.count as u64);
    for place in &finished.places[..n] {
        answers::put_number(output, b"", *place as u64);
    }
    pieces::end_line(output);
}
