// What refuses a turn of a held row: 9, 11, 12 and 13; and a fetch: 11, 12 and 14.
ghost use Rattle.std.specs.Prelude.{◌≡◌};
ghost use Rattle.refusals.specs.Numbers.{answered};
ghost use Rattle.runs.specs.Damage.{damaged};
ghost use Rattle.held.specs.RowFrom.{row_from};
ghost use Rattle.helddamage.specs.Others.{Others, held_with};
ghost use Rattle.rows.specs.Calls.{usable_number, turn_row_number, fetch_row_number};

use held::{HeldRow, LentJob, places};
use refusals::Refusal;

// The damage test of the row's arrays.
pub(crate) fn row_damaged(row: &HeldRow) -> bool
    ensures { result ≡ damaged (row_from row.now) }
{
    helddamage::is_damaged(
        &row.head.words,
        row.job.lent(),
        &row.run.surfaces,
        &row.best.surfaces,
    )
}

// 11 and 12, whatever the arrays are that it is not lent.
fn usable_over(
    words: &[u64; 13],
    job: LentJob,
    surfaces: &[f64; 64],
    best_surfaces: &[f64; 64],
) -> Result<(), Refusal>
    ensures { (o : Others) → answered result
        ≡ usable_number (row_from (held_with words.now job.entry.counts.now job.entry.numbers.now surfaces.now best_surfaces.now o)) }
{
    Refusal::Empty.unless(words[places::KIND] != 0)?;
    Refusal::Damaged.unless(!helddamage::is_damaged(words, job, surfaces, best_surfaces))
}

// What refuses a turn, whatever the arrays are that it is not lent.
#[tactic(auto, unfolding(crate::specs::Calls::turn_row_number))]
pub fn turn_refusal_over(
    room: usize,
    words: &[u64; 13],
    job: LentJob,
    surfaces: &[f64; 64],
    best_surfaces: &[f64; 64],
) -> Result<(), Refusal>
    ensures { (o : Others) → answered result
        ≡ turn_row_number room (row_from (held_with words.now job.entry.counts.now job.entry.numbers.now surfaces.now best_surfaces.now o)) }
{
    Refusal::ShortScratch.unless(room >= normal::SCRATCH)?;
    usable_over(words, job, surfaces, best_surfaces)?;
    Refusal::Finished.unless(!helddamage::is_over(words[places::KIND], words[places::PHASE]))
}

fn usable_refusal(row: &HeldRow) -> Result<(), Refusal>
    ensures { answered result ≡ usable_number (row_from row.now) }
{
    usable_over(
        &row.head.words,
        row.job.lent(),
        &row.run.surfaces,
        &row.best.surfaces,
    )
}

pub fn turn_refusal(room: usize, row: &HeldRow) -> Result<(), Refusal>
    ensures { answered result ≡ turn_row_number room (row_from row.now) }
{
    turn_refusal_over(
        room,
        &row.head.words,
        row.job.lent(),
        &row.run.surfaces,
        &row.best.surfaces,
    )
}

pub(crate) fn fetch_refusal(row: &HeldRow) -> Result<(), Refusal>
    ensures { answered result ≡ fetch_row_number (row_from row.now) }
{
    usable_refusal(row)?;
    Refusal::Unfinished.unless(helddamage::is_over(row.head.kind(), row.head.phase()))
}
