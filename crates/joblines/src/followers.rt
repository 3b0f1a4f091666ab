// The followers of a line's variables, where it has any.
ghost use Rattle.std.specs.Prelude.{◌≡◌};
ghost use Rattle.text.specs.Reader.{Reads, giving};
ghost use Rattle.joblines.specs.Followers.{place_from, follower_from, following_by, with_follower, followers_listed, followers_from};

use text::reader::{Reader, Why, Wrong};
use variables::{Follower, VariableDef};

// The number of a variable, of which the line has so many. No number is from 1 to 0.
#[tactic(auto, unfolding(crate::specs::Followers::place_from))]
fn read_place(reader: &mut Reader, count: usize) -> Result<u64, Wrong>
    ensures { Reads (place_from count) reader.old result reader.new }
{
    if count == 0 {
        return reader.within(1, 0, Why::Range);
    }
    reader.within(0, count as u64 - 1, Why::Range)
}

// A follower, and the number of the variable that it follows.
#[derive(Clone, Copy)]
struct Placed {
    pub place: usize,
    pub follower: Follower,
}

// variable sign surface
#[tactic(auto, unfolding(crate::specs::Followers::follower_from))]
fn read_follower(reader: &mut Reader, count: usize) -> Result<Placed, Wrong>
    ensures { Reads (follower_from count) reader.old result reader.new }
{
    let place = read_place(reader, count)?;
    let sign = reader.within(1, 2, Why::Range)?;
    let surface = reader.decimal()?;
    Ok(Placed {
        place: place as usize,
        follower: jobs::follower_of(sign, surface as usize),
    })
}

// The variable with its follower.
fn following(d: VariableDef, follower: Follower) -> VariableDef
    ensures { result ≡ following_by follower d }
{
    VariableDef { follower, ..d }
}

// Gives the follower to its variable, where that is among the eight that are kept.
fn follow(variables: &mut [VariableDef; 8], p: Placed)
    ensures { variables.new ≡ with_follower p variables.old }
{
    if p.place < 8 {
        variables[p.place] = following(variables[p.place], p.follower);
    }
}

// So many followers. A loop of its own: each says itself which variable it goes to.
fn read_listed(
    reader: &mut Reader,
    variables: &mut [VariableDef; 8],
    count: usize,
    many: usize,
) -> Result<(), Wrong>
    ensures { Reads (followers_listed count many variables.old) reader.old (giving variables.new result) reader.new }
{
    for _ in 0..many {
        let p = read_follower(reader, count)?;
        follow(variables, p);
    }
    Ok(())
}

// [F m {follower}]
#[tactic(auto, unfolding(crate::specs::Followers::followers_from))]
pub(crate) fn read_followers(
    reader: &mut Reader,
    variables: &mut [VariableDef; 8],
    count: usize,
) -> Result<(), Wrong>
    ensures { Reads (followers_from count variables.old) reader.old (giving variables.new result) reader.new }
{
    if !reader.passes(b"F") {
        return Ok(());
    }
    let many = reader.decimal()?;
    read_listed(reader, variables, count, many as usize)
}
