// A turn of a held row. A refused turn writes nothing.
ghost use Rattle.std.specs.Prelude.{◌≡◌, length};
ghost use Rattle.refusals.specs.Numbers.{answered};
ghost use Rattle.held.specs.RowFrom.{row_from};
ghost use Rattle.rows.specs.Calls.{turn_row_number, turned_row, scratch_of};

use crate::scratch::zero_first;
use held::{HeldHead, HeldRow};
use refusals::Refusal;
use rows::turn_refusal;

pub fn turn_row(row: &mut HeldRow, scratch: &mut [f64]) -> Result<(), Refusal>
    ensures { let before = row_from row.old in
        (answered result ≡ turn_row_number (length scratch.old) before)
        × (row_from row.new ≡ turned_row before (length scratch.old))
        × (scratch.new ≡ scratch_of before scratch.old) }
{
    turn_refusal(scratch.len(), row)?;
    let kind = row.head.kind();
    let turns = row.head.turns() + 1;
    let next = turns::turned(
        row.head.numbers(),
        kind,
        row.job.lent(),
        &mut row.run,
        &mut row.best,
        scratch,
    );
    row.head = HeldHead::of(kind, turns, next);
    zero_first(scratch);
    Ok(())
}
