// That each array of a row is as long as its type says: for proofs alone, these do nothing. Each names the arrays of one part, since the check
// knows a length where it sees the array's name.
ghost use Rattle.std.specs.Prelude.{◌≡◌, length};
ghost use Rattle.held.specs.RowFrom.{Long};

use held::{HeldBest, HeldHead, HeldRow, HeldRun};

fn head_long(head: &HeldHead)
    ensures { (length head.now.words ≡ 13) × (length head.now.scalars ≡ 7) }
{
    let HeldHead { words, scalars } = head;
}

fn run_long(run: &HeldRun)
    ensures surfaces { length run.now.surfaces ≡ 64 }
    ensures jacobian { length run.now.jacobian ≡ 96 }
    ensures values { length run.now.values ≡ 12 }
    ensures residuals { length run.now.residuals ≡ 12 }
    ensures plus_residuals { length run.now.plus_residuals ≡ 12 }
    ensures params { length run.now.params ≡ 8 }
    ensures candidate { length run.now.candidate ≡ 8 }
{
    let HeldRun {
        surfaces,
        jacobian,
        values,
        residuals,
        plus_residuals,
        params,
        candidate,
    } = run;
}

fn best_long(best: &HeldBest)
    ensures surfaces { length best.now.surfaces ≡ 64 }
    ensures values { length best.now.values ≡ 12 }
    ensures residuals { length best.now.residuals ≡ 12 }
{
    let HeldBest {
        surfaces,
        values,
        residuals,
    } = best;
}

pub(crate) fn row_long(row: &HeldRow)
    ensures { Long row.now }
{
    head_long(&row.head);
    row.job.lent();
    run_long(&row.run);
    best_long(&row.best);
}
