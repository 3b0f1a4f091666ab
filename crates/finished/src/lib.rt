// The finished places by working turns used, fewest first, equal ones by rising place (request 10).
// Stands on `rows`; called by `benchcalls` and by programs.
#![tactic(auto)]

ghost use Rattle.std.specs.Prelude.{◌≡◌, ◌≤◌};
ghost use Rattle.bench.specs.Calls.{listing_of};
ghost use Rattle.finished.specs.Inserted.{turns_of, turns_in, position_from, entry_opened, opened_at};

use bench::{Bench, Finished};

// Each place's working turns.
fn turns_of(bench: &Bench) -> [u64; 4]
    ensures { result ≡ turns_of bench.now }
{
    [
        bench.rows[0].head.turns(),
        bench.rows[1].head.turns(),
        bench.rows[2].head.turns(),
        bench.rows[3].head.turns(),
    ]
}

fn turns_at(turns: [u64; 4], place: usize) -> u64
    ensures { result ≡ turns_in turns place }
{
    if place > 3 {
        return 0;
    }
    turns[place]
}

// Where the place comes to stand among the first so many: in front of the first that has more turns.
fn position(turns: [u64; 4], places: [usize; 4], count: usize, place: usize) -> usize
    requires { count ≤ 4 }
    ensures { result ≡ position_from (turns_in turns) place places 0 count }
{
    for at in 0..count {
        if turns_at(turns, place) < turns_at(turns, places[at]) {
            return at;
        }
    }
    count
}

// Entry i, when a place stands at `at` and those from there on one further.
fn entry(places: [usize; 4], at: usize, place: usize, i: usize) -> usize
    requires { i ≤ 3 }
    ensures { result ≡ entry_opened at place places i }
{
    if i < at {
        return places[i];
    }
    if i == at {
        return place;
    }
    places[i - 1]
}

fn opened(places: [usize; 4], at: usize, place: usize) -> [usize; 4]
    ensures { result ≡ opened_at at place places }
{
    [
        entry(places, at, place, 0),
        entry(places, at, place, 1),
        entry(places, at, place, 2),
        entry(places, at, place, 3),
    ]
}

pub fn listed(bench: &Bench) -> Finished
    ensures { result ≡ listing_of bench.now }
{
    let turns = turns_of(bench);
    let mut places = [0; 4];
    let mut count: usize = 0;
    for place in 0..4 {
        if rows::is_listed(&bench.rows[place]) {
            let at = position(turns, places, count, place);
            // Two steps: no proof is written where a call's result is laid right into an array.
            let next = opened(places, at, place);
            places = next;
            count += 1;
        }
    }
    Finished { places, count }
}
