// Held rows part by part, and benches row by row.
ghost use Rattle.std.specs.Prelude.{◌≡◌};
ghost use Rattle.bench.specs.Benches.{no_row};
ghost use Rattle.alike.specs.Same.{same_job, same_head, same_run, same_best, same_row, same_rows, same_bench};
ghost use Rattle.alike.proofs.Itself.{job, head, run, best, row};

use crate::arrays::{SameBits, are_same};
use bench::Bench;
use held::{HeldBest, HeldHead, HeldJob, HeldRow, HeldRun};

impl SameBits for HeldJob {
    ghost alike = { same_job };

    ghost none = { no_row.job };

    fn is_same(&self, other: &HeldJob) -> bool {
        are_same(&self.counts, &other.counts) && are_same(&self.numbers, &other.numbers)
    }

    ghost itself = { job };
}

impl SameBits for HeldHead {
    ghost alike = { same_head };

    ghost none = { no_row.head };

    fn is_same(&self, other: &HeldHead) -> bool {
        are_same(&self.words, &other.words) && are_same(&self.scalars, &other.scalars)
    }

    ghost itself = { head };
}

impl SameBits for HeldRun {
    ghost alike = { same_run };

    ghost none = { no_row.run };

    fn is_same(&self, other: &HeldRun) -> bool {
        are_same(&self.surfaces, &other.surfaces)
            && are_same(&self.values, &other.values)
            && are_same(&self.residuals, &other.residuals)
            && are_same(&self.jacobian, &other.jacobian)
            && are_same(&self.plus_residuals, &other.plus_residuals)
            && are_same(&self.params, &other.params)
            && are_same(&self.candidate, &other.candidate)
    }

    ghost itself = { run };
}

impl SameBits for HeldBest {
    ghost alike = { same_best };

    ghost none = { no_row.best };

    fn is_same(&self, other: &HeldBest) -> bool {
        are_same(&self.surfaces, &other.surfaces)
            && are_same(&self.values, &other.values)
            && are_same(&self.residuals, &other.residuals)
    }

    ghost itself = { best };
}

impl SameBits for HeldRow {
    ghost alike = { same_row };

    ghost none = { no_row };

    fn is_same(&self, other: &HeldRow) -> bool {
        self.job.is_same(&other.job)
            && self.head.is_same(&other.head)
            && self.run.is_same(&other.run)
            && self.best.is_same(&other.best)
    }

    ghost itself = { row };
}

fn same_rows(a: &Bench, b: &Bench) -> bool
    ensures { result ≡ same_rows a.now b.now }
{
    are_same(&a.rows, &b.rows)
}

pub fn same_benches(a: &Bench, b: &Bench) -> bool
    ensures { result ≡ same_bench a.now b.now }
{
    same_rows(a, b) && a.next_place == b.next_place
}
