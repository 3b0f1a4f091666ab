// The entries of a row, and what is tried of each.
use crate::change::Change;
use crate::limits::Limit;
use crate::range::Range;
use crate::uses::Uses;
use held::places;

// A name in twelve letters, where a row has the entry in use, and what is done to it there.
#[derive(Clone, Copy)]
pub(crate) struct Entry {
    pub name: [u8; 12],
    pub uses: Uses,
    pub change: Change,
}

pub(crate) const ENTRIES: [Entry; 56] = [
    Entry {
        name: *b"kind        ",
        uses: Uses::Once,
        change: Change::Word(places::KIND, Limit::Is(4)),
    },
    Entry {
        name: *b"phase       ",
        uses: Uses::Once,
        change: Change::Word(places::PHASE, Limit::Phase),
    },
    Entry {
        name: *b"turns       ",
        uses: Uses::OnWay,
        change: Change::Word(places::TURNS, Limit::Turns),
    },
    Entry {
        name: *b"column      ",
        uses: Uses::Once,
        change: Change::Word(places::COLUMN, Limit::Enabled),
    },
    Entry {
        name: *b"attempt     ",
        uses: Uses::Once,
        change: Change::Word(places::ATTEMPT, Limit::Is(11)),
    },
    Entry {
        name: *b"iteration   ",
        uses: Uses::Once,
        change: Change::Word(places::ITERATION, Limit::Iteration),
    },
    Entry {
        name: *b"trial       ",
        uses: Uses::Once,
        change: Change::Word(places::TRIAL, Limit::Trial),
    },
    Entry {
        name: *b"cycle       ",
        uses: Uses::Once,
        change: Change::Word(places::CYCLE, Limit::Cycle),
    },
    Entry {
        name: *b"step        ",
        uses: Uses::Once,
        change: Change::Word(places::STEP, Limit::Step),
    },
    Entry {
        name: *b"surfaces    ",
        uses: Uses::Once,
        change: Change::Count(places::SURFACE_COUNT, 0, Limit::Is(17)),
    },
    Entry {
        name: *b"slots       ",
        uses: Uses::Once,
        change: Change::Positive(places::SLOT_COUNT, Limit::Is(5)),
    },
    Entry {
        name: *b"variables   ",
        uses: Uses::Once,
        change: Change::Positive(places::VARIABLE_COUNT, Limit::Is(9)),
    },
    Entry {
        name: *b"operands    ",
        uses: Uses::Once,
        change: Change::Positive(places::OPERAND_COUNT, Limit::Is(13)),
    },
    Entry {
        name: *b"iterations  ",
        uses: Uses::Damped,
        change: Change::Count(places::MAX_ITERATIONS, 0, Limit::Is(1001)),
    },
    Entry {
        name: *b"trials      ",
        uses: Uses::MultiStart,
        change: Change::Count(places::NUM_TRIALS, 0, Limit::Is(1001)),
    },
    Entry {
        name: *b"steps       ",
        uses: Uses::Annealing,
        change: Change::Count(places::STEPS_PER_TEMPERATURE, 0, Limit::Is(1001)),
    },
    Entry {
        name: *b"cycles      ",
        uses: Uses::Annealing,
        change: Change::Count(places::MAX_COOLING_CYCLES, 0, Limit::Is(1001)),
    },
    Entry {
        name: *b"variable    ",
        uses: Uses::Variables,
        change: Change::Count(places::VARIABLE_COUNTS, 5, Limit::Is(4)),
    },
    Entry {
        name: *b"at-surface  ",
        uses: Uses::Variables,
        change: Change::Count(places::VARIABLE_COUNTS + 1, 5, Limit::Surfaces),
    },
    Entry {
        name: *b"enabled     ",
        uses: Uses::Variables,
        change: Change::Count(places::VARIABLE_COUNTS + 2, 5, Limit::Is(2)),
    },
    Entry {
        name: *b"operand     ",
        uses: Uses::Operands,
        change: Change::Count(places::OPERAND_COUNTS, 2, Limit::Is(8)),
    },
    Entry {
        name: *b"at          ",
        uses: Uses::SlotOperands,
        change: Change::Count(places::OPERAND_COUNTS + 1, 2, Limit::Slots),
    },
    Entry {
        name: *b"radius      ",
        uses: Uses::Surfaces,
        change: Change::Number(0, 4, Range::Any),
    },
    Entry {
        name: *b"conic       ",
        uses: Uses::Surfaces,
        change: Change::Number(1, 4, Range::Finite),
    },
    Entry {
        name: *b"thickness   ",
        uses: Uses::Surfaces,
        change: Change::Number(2, 4, Range::Near),
    },
    Entry {
        name: *b"semi        ",
        uses: Uses::Surfaces,
        change: Change::Number(3, 4, Range::Size),
    },
    Entry {
        name: *b"now-radius  ",
        uses: Uses::Current,
        change: Change::Surface(0, Range::Any),
    },
    Entry {
        name: *b"now-conic   ",
        uses: Uses::Current,
        change: Change::Surface(1, Range::Finite),
    },
    Entry {
        name: *b"now-thick   ",
        uses: Uses::Current,
        change: Change::Surface(2, Range::Near),
    },
    Entry {
        name: *b"now-semi    ",
        uses: Uses::Current,
        change: Change::Surface(3, Range::Size),
    },
    Entry {
        name: *b"best-radius ",
        uses: Uses::Best,
        change: Change::BestSurface(0, Range::Any),
    },
    Entry {
        name: *b"best-conic  ",
        uses: Uses::Best,
        change: Change::BestSurface(1, Range::Finite),
    },
    Entry {
        name: *b"best-thick  ",
        uses: Uses::Best,
        change: Change::BestSurface(2, Range::Near),
    },
    Entry {
        name: *b"best-semi   ",
        uses: Uses::Best,
        change: Change::BestSurface(3, Range::Size),
    },
    Entry {
        name: *b"index       ",
        uses: Uses::Indices,
        change: Change::Number(places::INDICES, 1, Range::Index),
    },
    Entry {
        name: *b"pupil       ",
        uses: Uses::Once,
        change: Change::Number(places::PUPIL, 0, Range::Size),
    },
    Entry {
        name: *b"min         ",
        uses: Uses::Variables,
        change: Change::Number(places::VARIABLE_NUMBERS, 3, Range::Near),
    },
    Entry {
        name: *b"max         ",
        uses: Uses::Variables,
        change: Change::Number(places::VARIABLE_NUMBERS + 1, 3, Range::Near),
    },
    Entry {
        name: *b"step-size   ",
        uses: Uses::Variables,
        change: Change::Number(places::VARIABLE_NUMBERS + 2, 3, Range::Step),
    },
    Entry {
        name: *b"limit       ",
        uses: Uses::LimitedOperands,
        change: Change::Number(places::OPERAND_NUMBERS, 3, Range::Near),
    },
    Entry {
        name: *b"target      ",
        uses: Uses::Operands,
        change: Change::Number(places::OPERAND_NUMBERS + 1, 3, Range::Near),
    },
    Entry {
        name: *b"weight      ",
        uses: Uses::Operands,
        change: Change::Number(places::OPERAND_NUMBERS + 2, 3, Range::Weight),
    },
    Entry {
        name: *b"damping     ",
        uses: Uses::Damped,
        change: Change::Number(places::INITIAL_DAMPING, 0, Range::Damping),
    },
    Entry {
        name: *b"merit-tol   ",
        uses: Uses::Damped,
        change: Change::Number(places::RELATIVE_MERIT_TOLERANCE, 0, Range::Finite),
    },
    Entry {
        name: *b"gradient-tol",
        uses: Uses::Damped,
        change: Change::Number(places::GRADIENT_TOLERANCE, 0, Range::Finite),
    },
    Entry {
        name: *b"rel-step    ",
        uses: Uses::Damped,
        change: Change::Number(places::RELATIVE_STEP, 0, Range::Part),
    },
    Entry {
        name: *b"temperature ",
        uses: Uses::Annealing,
        change: Change::Number(places::INITIAL_TEMPERATURE, 0, Range::Finite),
    },
    Entry {
        name: *b"cooling     ",
        uses: Uses::Annealing,
        change: Change::Number(places::COOLING_RATE, 0, Range::Part),
    },
    Entry {
        name: *b"crossed     ",
        uses: Uses::Variables,
        change: Change::Crossed,
    },
    Entry {
        name: *b"lower-semi  ",
        uses: Uses::SemiDiameters,
        change: Change::Number(places::VARIABLE_NUMBERS, 3, Range::Size),
    },
    Entry {
        name: *b"taken       ",
        uses: Uses::Once,
        change: Change::Taken,
    },
    Entry {
        name: *b"empty       ",
        uses: Uses::Once,
        change: Change::Emptied,
    },
    Entry {
        name: *b"follows     ",
        uses: Uses::Variables,
        change: Change::Sign,
    },
    Entry {
        name: *b"follower    ",
        uses: Uses::Variables,
        change: Change::Plus,
    },
    Entry {
        name: *b"minus       ",
        uses: Uses::MinusVariables,
        change: Change::Minus,
    },
    Entry {
        name: *b"no-follower ",
        uses: Uses::Variables,
        change: Change::NoFollower,
    },
];
