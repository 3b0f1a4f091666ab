// Admission to the place that holds a row, and its release: the row is lent, and stays as it is where the call is refused.
ghost use Rattle.std.specs.Prelude.{◌≡◌};
ghost use Rattle.lists.specs.Refusals.{first_refusal};
ghost use Rattle.refusals.specs.Numbers.{answered};
ghost use Rattle.held.specs.RowFrom.{row_from};
ghost use Rattle.bench.specs.Refusals.{admit_refusals};
ghost use Rattle.rows.specs.Calls.{admit_row_number, admitted_row, release_row_number, released_row};

use crate::began::began;
use crate::zeros;
use held::HeldRow;
use jobs::{JobRecord, JobRequest};
use refusals::Refusal;

// Why an admission is refused: 1, 2, 3 to 8, and 10 where the place is occupied.
pub fn admit_refusal(place: usize, occupied: bool, request: JobRequest) -> Result<(), Refusal>
    ensures { answered result ≡ first_refusal (admit_refusals place request occupied) }
{
    let asked = defaults::refusal_of(request);
    if matches!(asked, Err(Refusal::BadCount)) {
        return asked;
    }
    Refusal::NoSuchPlace.unless(place < 4)?;
    asked?;
    Refusal::Taken.unless(!occupied)
}

// An admission to the place that holds the row.
pub fn admit_row(row: &mut HeldRow, place: usize, request: JobRequest) -> Result<(), Refusal>
    ensures { (answered result ≡ admit_row_number (row_from row.old) place request) × (row.new ≡ admitted_row row.old place request) }
{
    admit_refusal(place, row.head.kind() != 0, request)?;
    let job = defaults::job_from(request);
    *row = heldrows::held_of(began(JobRecord::from(job), job));
    Ok(())
}

// A release.
#[tactic(auto, unfolding(crate::specs::Calls::release_row_number, crate::specs::Calls::released_row))]
pub fn release_row(row: &mut HeldRow) -> Result<(), Refusal>
    ensures { (answered result ≡ release_row_number (row_from row.old)) × (row.new ≡ released_row row.old) }
{
    Refusal::Empty.unless(row.head.kind() != 0)?;
    *row = zeros::zero_row();
    Ok(())
}
