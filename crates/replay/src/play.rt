// A run played to its end on a bench whose other places go on meanwhile.
ghost use Rattle.std.specs.Prelude.{◌<◌};
ghost use Rattle.replay.specs.Moves.{Moves};

use bench::Bench;
use refusals::Refusal;

// The digest and the number of a job's turns.
#[derive(Clone, Copy)]
pub(crate) struct Turns {
    pub hash: u64,
    pub count: u64,
}

// The digest with the surfaces and the merit that the place's next turn works out.
fn with_pending(hash: u64, bench: &Bench, place: usize) -> Result<u64, Refusal>
    requires { place < 4 }
{
    let row = &bench.rows[place];
    let pending = rowturns::pending_of(row)?;
    let h = answers::with_surfaces(hash, pending.surfaces, row.job.lent().surface_count());
    Ok(answers::with_float(h, pending.merit))
}

// One of the three other places, in rotation.
fn other_place(place: usize, turns: u64) -> usize {
    let ahead = (turns % 3 + 1) as usize;
    (place % 4 + ahead) % 4
}

// One turn of the job at the place, then one of another place, refused or not; none where the job's is refused.
fn step(bench: &mut Bench, place: usize, turns: Turns) -> Option<Turns>
    requires { place < 4 }
    ensures { Moves bench.old bench.new }
{
    let hash = with_pending(turns.hash, bench, place).ok()?;
    let mut scratch = [0.0; 128];
    if benchcalls::turn(bench, place, &mut scratch) > 0 {
        return None;
    }
    benchcalls::turn(bench, other_place(place, turns.count), &mut scratch);
    Some(Turns {
        hash,
        count: turns.count.wrapping_add(1),
    })
}

// Turns of the job at the place until one is refused, as it is when the job is finished. A proved loop has to end: the turns
// are counted, up to a number that no job reaches.
pub(crate) fn play(bench: &mut Bench, place: usize) -> Turns
    requires { place < 4 }
    ensures { Moves bench.old bench.new }
{
    let mut turns = Turns {
        hash: answers::START,
        count: 0,
    };
    for _ in 0..u64::MAX {
        let Some(more) = step(bench, place, turns) else {
            break;
        };
        turns = more;
    }
    turns
}
