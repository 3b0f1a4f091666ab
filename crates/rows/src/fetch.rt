// A fetch from the place that holds a row, whether the listing has that place, and whether its row is damaged.
ghost use Rattle.std.specs.Prelude.{◌≡◌};
ghost use Rattle.refusals.specs.Numbers.{answered};
ghost use Rattle.held.specs.RowFrom.{row_from};
ghost use Rattle.bench.specs.Calls.{is_listed, taken_damaged};
ghost use Rattle.rows.specs.Calls.{fetch_row_number, fetched_of_row};

use crate::numbers::{fetch_refusal, row_damaged};
use crate::results::result_of;
use held::HeldRow;
use refusals::Refusal;
use runs::OptimizationResult;

// The result of the row's run; what is lent for it stays where the fetch is refused.
pub fn fetch_row(row: &HeldRow, res: &mut OptimizationResult) -> Result<(), Refusal>
    ensures { (answered result ≡ fetch_row_number (row_from row.now)) × (res.new ≡ fetched_of_row (row_from row.now) res.old) }
{
    fetch_refusal(row)?;
    *res = result_of(row);
    Ok(())
}

// Whether the listing has the row's place.
pub fn is_listed(row: &HeldRow) -> bool
    ensures { result ≡ is_listed (row_from row.now) }
{
    fetch_refusal(row).is_ok()
}

// Whether the place is taken and its row damaged.
pub fn is_damaged(row: &HeldRow) -> bool
    ensures { result ≡ taken_damaged (row_from row.now) }
{
    row.head.kind() != 0 && row_damaged(row)
}
