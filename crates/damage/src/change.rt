// A held row with one entry changed, there where it stands.
ghost use Rattle.std.specs.Prelude.{◌<◌};

use crate::limits;
use crate::limits::Limit;
use crate::range::Range;
use held::{HeldRow, places};

// Where an entry stands at place 0, how far it is to the next place, and what is damage there.
#[derive(Clone, Copy)]
pub(crate) enum Change {
    Word(usize, Limit),
    Count(usize, usize, Limit),
    // A count of which none is damage too.
    Positive(usize, Limit),
    Number(usize, usize, Range),
    // Of the four numbers of a surface.
    Surface(usize, Range),
    BestSurface(usize, Range),
    // A variable's greatest value below its least.
    Crossed,
    // A follower's number that is no sign; plus and a surface that there is not; minus, where that is none.
    Sign,
    Plus,
    Minus,
    // Any surface beside no sign: no damage.
    NoFollower,
    // Other changes that are no damage.
    Taken,
    // A kind of 0, with which a place is empty whatever else its row has.
    Emptied,
}

// How far one variable's follower is from the next one's.
const FOLLOWS: usize = places::VARIABLE_COUNTS + 3;

impl Change {
    // The row with the entry at place i set to the v-th of its five values.
    pub(crate) fn of(self, row: &HeldRow, i: usize, v: usize) -> HeldRow
        requires { v < 5 }
    {
        let mut r = *row;
        match self {
            Change::Word(at, limit) => set(&mut r.head.words, at, past(limit.least(row), v)),
            Change::Count(at, step, limit) => {
                set(
                    &mut r.job.counts,
                    place(at, step, i),
                    past(limit.least(row), v),
                );
            }
            Change::Positive(at, limit) => {
                let values = limits::values(limit.least(row), 0);
                set(&mut r.job.counts, at, values[v]);
            }
            Change::Number(at, step, range) => {
                set(&mut r.job.numbers, place(at, step, i), range.values()[v]);
            }
            Change::Surface(at, range) => {
                set(&mut r.run.surfaces, place(at, 4, i), range.values()[v]);
            }
            Change::BestSurface(at, range) => {
                set(&mut r.best.surfaces, place(at, 4, i), range.values()[v]);
            }
            Change::Crossed => cross(&mut r.job.numbers, place(places::VARIABLE_NUMBERS, 3, i)),
            Change::Sign => follow(&mut r.job.counts, i, past(3, v), 0),
            Change::Plus => {
                let surface = past(row.job.lent().surface_count() as u64, v);
                follow(&mut r.job.counts, i, 1, surface);
            }
            Change::Minus => follow(&mut r.job.counts, i, 2, 0),
            Change::NoFollower => {
                let surface = past(row.job.lent().surface_count() as u64, v);
                follow(&mut r.job.counts, i, 0, surface);
            }
            Change::Taken => leave_taken(&mut r, v),
            Change::Emptied => set(&mut r.head.words, places::KIND, 0),
        }
        r
    }
}

// Where an entry stands at place i.
fn place(at: usize, step: usize, i: usize) -> usize {
    step.wrapping_mul(i).wrapping_add(at)
}

fn set<T: Copy + Drop>(array: &mut [T], at: usize, x: T) {
    if at < array.len() {
        array[at] = x;
    }
}

// A number from the least on that is none.
fn past(least: u64, v: usize) -> u64
    requires { v < 5 }
{
    limits::values(least, u64::MAX - 1)[v]
}

// A greatest value below the least, which stands at `at`.
fn cross(numbers: &mut [f64; 195], at: usize) {
    let least = numbers[at % 194];
    numbers[at % 194 + 1] = least - 0.001 - floats::abs(least) / 1000.0;
}

fn follow(counts: &mut [u64; 73], i: usize, sign: u64, surface: u64) {
    let at = place(FOLLOWS, 5, i);
    set(counts, at, sign);
    set(counts, at.wrapping_add(1), surface);
}

// None, a generator at 0, and NaN in what a run reads but need not trust.
fn leave_taken(r: &mut HeldRow, v: usize) {
    match v {
        0 => {}
        1 => r.head.words[places::GENERATOR] = 0,
        2 => r.run.params = [f64::NAN; 8],
        3 => r.run.jacobian = [f64::NAN; 96],
        _ => {
            r.head.scalars[places::CURRENT_MERIT] = f64::NAN;
            r.head.scalars[places::TEMPERATURE] = f64::NAN;
        }
    }
}
