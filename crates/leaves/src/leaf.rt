// The leaf lines: a name, and the numbers that the function of that name is asked at.
ghost use Rattle.std.specs.Prelude.{◌≡◌, [], ◌∷◌, ◌++◌, OnOk, OnErr};
ghost use Rattle.streams.specs.Output.{Puts};
ghost use Rattle.leaves.specs.Lines.{leaf_rest, one_number, seed_and_count, two_in_hex, seed_and_two, with_bounds, ReadAs, Answers, line_texts};
ghost use Rattle.leaves.specs.Replies.{reply_texts, a_number, two_numbers, a_draw, a_state, leaf_sort, IsReply};

use crate::names::Leaf;
use crate::pieces;
use streams::output::Output;
use text::reader::{Reader, Why, Wrong};

// What a leaf line is answered with.
#[derive(Clone, Copy)]
enum Reply {
    One(f64),
    Two(f64, f64),
    Draw(u64, f64),
    State(u64),
}

// The reply to a line of that name, from where the name ends.
#[tactic(auto, unfolding(crate::specs::Lines::leaf_rest, crate::specs::Replies::leaf_sort))]
fn reply_to(reader: &mut Reader, leaf: Leaf) -> Result<Reply, Wrong>
    ensures { ReadAs (leaf_rest leaf) (leaf_sort leaf) reader.old result reader.new }
{
    match leaf {
        Leaf::Exp => value(reader, |x| floats::exp_stand_in(x)),
        Leaf::Sqrt => value(reader, |x| roots::sqrt(x)),
        Leaf::Abs => value(reader, |x| floats::abs(x)),
        Leaf::Draw => draw(reader),
        Leaf::Jump => jumped(reader),
        Leaf::Uniform => uniform(reader),
        Leaf::Clamp => clamp(reader),
    }
}

// E x, SQRT x, ABS x
fn value<F: Fn(f64) -> f64>(reader: &mut Reader, function: F) -> Result<Reply, Wrong>
    requires { F.IsAlwaysCallable function }
    ensures { ReadAs one_number a_number reader.old result reader.new }
{
    let x = reader.float()?;
    reader.end()?;
    Ok(Reply::One(function(x)))
}

// DRAW seed n: the state after n draws, and its unit draw; zeros where n is 0, as the oracle has it.
fn draw(reader: &mut Reader) -> Result<Reply, Wrong>
    ensures { ReadAs seed_and_count a_draw reader.old result reader.new }
{
    let seed = reader.hex()?;
    let draws = reader.decimal()?;
    reader.end()?;
    let Some(before) = draws.checked_sub(1) else {
        return Ok(Reply::Draw(0, 0.0));
    };
    let draw = xorshift::drawn(xorshift::state_after(seed, before));
    Ok(Reply::Draw(draw.state, draw.unit))
}

// JUMP state n: the state after n draws. It is a state and no seed: 0 stays 0.
fn jumped(reader: &mut Reader) -> Result<Reply, Wrong>
    ensures { ReadAs two_in_hex a_state reader.old result reader.new }
{
    let state = reader.hex()?;
    let draws = reader.hex()?;
    reader.end()?;
    Ok(Reply::State(jump::jump(state, draws)))
}

// UNIFORM seed a b: the first draw
fn uniform(reader: &mut Reader) -> Result<Reply, Wrong>
    ensures { ReadAs seed_and_two a_number reader.old result reader.new }
{
    let seed = reader.hex()?;
    let a = reader.float()?;
    let b = reader.float()?;
    reader.end()?;
    let draw = xorshift::drawn(xorshift::state_after(seed, 0));
    Ok(Reply::One(xorshift::uniform(draw.unit, a, b)))
}

// CLAMP x lo hi: Rust's clamp, and that of applied values. Rust's has no answer at crossed bounds: the upper is out of form.
fn clamp(reader: &mut Reader) -> Result<Reply, Wrong>
    ensures { ReadAs with_bounds two_numbers reader.old result reader.new }
{
    let x = reader.float()?;
    let lo = reader.float()?;
    let crossed = reader.wrong(Why::Range);
    let hi = reader.float()?;
    reader.end()?;
    if lo <= hi {
        return Ok(Reply::Two(floats::clamp(x, lo, hi), apply_clamp(x, lo, hi)));
    }
    Err(crossed)
}

// The clamp of applied values: a NaN counts as below the lower bound.
fn apply_clamp(x: f64, lo: f64, hi: f64) -> f64 {
    if x != x { lo } else { floats::clamp(x, lo, hi) }
}

fn put_reply(output: &mut Output, reply: Reply)
    ensures { Puts output.old (reply_texts reply) output.new }
{
    match reply {
        Reply::One(x) => output.put_floats(&[x]),
        Reply::Two(x, y) => output.put_floats(&[x, y]),
        Reply::Draw(state, unit) => {
            pieces::put_state(output, state);
            output.put_floats(&[unit]);
        }
        Reply::State(state) => pieces::put_state(output, state),
    }
}

// Answers a line of that name, from where the name ends.
pub(crate) fn answer(output: &mut Output, reader: &mut Reader, leaf: Leaf) -> Result<(), Wrong>
    ensures value { result ≡ leaf_rest leaf reader.old.line.now reader.old.at }
    ensures ok { OnOk result (Answers (line_texts reader.old.line.now) (IsReply leaf) output.old output.new) }
    ensures err { OnErr result (output.new ≡ output.old) }
{
    let reply = reply_to(reader, leaf)?;
    pieces::put_line(output, reader.line);
    put_reply(output, reply);
    pieces::end_line(output);
    Ok(())
}
