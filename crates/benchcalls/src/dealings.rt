// Turns dealt round the places (request 8).
ghost use Rattle.std.specs.Prelude.{◌≡◌, length};
ghost use Rattle.refusals.specs.Numbers.{numbered};
ghost use Rattle.bench.specs.Calls.{dealt_of, dealt_bench, dealt_scratch};
ghost use Rattle.dealing.specs.Rounds.{dealt_as};

use crate::lent;
use bench::{Bench, Dealt};
use dealing::Round;
use refusals::Refusal;

// So many turns, one each, from the place to go next, and how many were dealt. 9 and 12. The loop counts nothing itself: it goes on while turns are
// left to deal.
fn deal_turns(bench: &mut Bench, turns: u16, scratch: &mut [f64]) -> Result<u32, Refusal>
    ensures { (dealt_as (numbered result) ≡ dealt_of bench.old turns (length scratch.old))
        × (bench.new ≡ dealt_bench bench.old turns (length scratch.old))
        × (scratch.new ≡ dealt_scratch bench.old turns scratch.old) }
{
    let mut round = Round::begun(bench, turns, scratch.len())?;
    while round.dealt < round.limit {
        let answer = lent::take_turn(bench, round.at, scratch);
        round = round.moved(answer);
    }
    bench.next_place = round.next;
    Ok(round.dealt)
}

// The same for a caller in C: what refuses it is a number beside none dealt.
#[unsafe(no_mangle)]
pub extern "C" fn deal(bench: &mut Bench, turns: u16, scratch: &mut [f64]) -> Dealt
    ensures { (result ≡ dealt_of bench.old turns (length scratch.old))
        × (bench.new ≡ dealt_bench bench.old turns (length scratch.old))
        × (scratch.new ≡ dealt_scratch bench.old turns scratch.old) }
{
    match deal_turns(bench, turns, scratch) {
        Ok(dealt) => Dealt { dealt, number: 0 },
        Err(refusal) => Dealt {
            dealt: 0,
            number: refusal.number(),
        },
    }
}
