// Jumping ahead in the draws: 64 stored tables of 64 words, of which table k carries a state over 2^k draws.
// Stands on `xorshift`; called by the programs `leaves` and `jumptable`, by no run.
#![tactic(auto)]

mod table;

ghost use Rattle.std.specs.Prelude.{◌≡◌, ◌*◌, ◌<◌, length};
ghost use Rattle.xorshift.specs.Xorshift.{step_times};
ghost use Rattle.jump.specs.Table.{table};
ghost use Rattle.jump.specs.Apply.{apply};
ghost use Rattle.jump.specs.Jump.{row};
ghost use Rattle.jump.specs.Drawn.{word_from};

use xorshift::step;

// The stored tables. A constant that is indexed would be built anew at each read, so callers take it once and lend it.
fn stored() -> [u64; 4096]
    ensures { result ≡ table }
{
    table::TABLE
}

// A word where the bit is set, and else 0.
fn at_bit(word: u64, bit: u64) -> u64
    requires { bit < 2 }
    ensures { result ≡ word * bit }
{
    word * bit
}

// Table k applied to a state: the words at the state's set bits, xored.
fn applied(tables: &[u64; 4096], k: usize, state: u64) -> u64
    requires { (k < 64) × (length tables.now ≡ 4096) }
    ensures { result ≡ apply (row k tables.now) state }
{
    let mut sum = 0u64;
    let mut bits = state;
    for i in 0..64 {
        sum ^= at_bit(tables[64 * k + i], bits % 2);
        bits /= 2;
    }
    sum
}

// The state after n draws, by the tables at the set bits of n.
pub fn jump(state: u64, n: u64) -> u64
    ensures { result ≡ step_times n state }
{
    let tables = stored();
    let mut x = state;
    let mut left = n;
    for k in 0..64 {
        if left % 2 == 1 {
            x = applied(&tables, k, x);
        }
        left /= 2;
    }
    x
}

// The word at a place, from the words before it: in the first table the draw of one bit, in a later one the table before it
// applied to its own word.
fn word_from(tables: &[u64; 4096], at: usize) -> u64
    requires { (at < 4096) × (length tables.now ≡ 4096) }
    ensures { result ≡ word_from tables.now at }
{
    if at < 64 {
        step(1u64 << at)
    } else {
        let before = at - 64;
        applied(tables, before / 64, tables[before])
    }
}

// The tables from the step alone: the stored ones, for the program that prints them.
pub fn drawn() -> [u64; 4096]
    ensures { result ≡ table }
{
    let mut tables = [0u64; 4096];
    for at in 0..4096 {
        tables[at] = word_from(&tables, at);
    }
    tables
}
