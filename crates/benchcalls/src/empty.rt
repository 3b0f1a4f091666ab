// The empty bench.
ghost use Rattle.std.specs.Prelude.{◌≡◌};
ghost use Rattle.bench.specs.Benches.{empty_bench};

use bench::Bench;

// "the empty bench from which others are reached is all zero"
pub fn empty_bench() -> Bench
    ensures { result ≡ empty_bench }
{
    let zero = rows::zero_row();
    Bench {
        rows: [zero; 4],
        next_place: 0,
    }
}
