// Admission, turn, fetch, release and listing, on a bench that is lent. No call asks anything of what it is handed: any bench whatever may be.
ghost use Rattle.std.specs.Prelude.{◌≡◌, length};
ghost use Rattle.bench.specs.Calls.{admit_number, admitted_bench, turn_number, turned_bench, scratch_after, fetch_number, fetched_result, release_number};
ghost use Rattle.bench.specs.Calls.{released_bench, listing_of};
ghost use Rattle.refusals.specs.Numbers.{answered};
ghost use Rattle.records.specs.Exported.{admit_record_number, admitted_record_bench};

use crate::lengths::row_long;
use bench::{Bench, Finished};
use jobs::JobRequest;
use records::RequestRecord;
use refusals::Refusal;
use runs::OptimizationResult;

// A job comes to an empty place. 1 to 8 and 10.
pub fn admit(bench: &mut Bench, place: usize, request: JobRequest) -> Result<(), Refusal>
    ensures { (answered result ≡ admit_number bench.old place request) × (bench.new ≡ admitted_bench bench.old place request) }
{
    if place > 3 {
        return rows::admit_refusal(place, false, request);
    }
    rows::admit_row(&mut bench.rows[place], place, request)
}

// The same by a record of numbers: one that is no request is refused by 1.
fn admit_asked(bench: &mut Bench, place: usize, asked: RequestRecord) -> Result<(), Refusal>
    ensures { (answered result ≡ admit_record_number bench.old place asked)
        × (bench.new ≡ admitted_record_bench bench.old place asked) }
{
    Refusal::BadCount.unless(records::is_request(asked))?;
    admit(bench, place, records::request_of(asked))
}

// The same for a caller in C: the record lent. A number for a kind that is none gives 1.
#[unsafe(no_mangle)]
pub extern "C" fn admit_record(bench: &mut Bench, place: usize, asked: &RequestRecord) -> u32
    ensures { (result ≡ admit_record_number bench.old place asked.now)
        × (bench.new ≡ admitted_record_bench bench.old place asked.now) }
{
    refusals::answered(admit_asked(bench, place, *asked))
}

pub(crate) fn take_turn(bench: &mut Bench, place: usize, scratch: &mut [f64]) -> Result<(), Refusal>
    ensures { (answered result ≡ turn_number bench.old place (length scratch.old))
        × (bench.new ≡ turned_bench bench.old place (length scratch.old))
        × (scratch.new ≡ scratch_after bench.old place scratch.old) }
{
    if place > 3 {
        return Err(Refusal::NoSuchPlace);
    }
    let row = &mut bench.rows[place];
    row_long(row);
    let done = rowturns::turn_row(row, scratch);
    row_long(row);
    done
}

// One merit of the job at the place. 2, 9 and 11 to 13.
#[unsafe(no_mangle)]
pub extern "C" fn turn(bench: &mut Bench, place: usize, scratch: &mut [f64]) -> u32
    ensures { (result ≡ turn_number bench.old place (length scratch.old))
        × (bench.new ≡ turned_bench bench.old place (length scratch.old))
        × (scratch.new ≡ scratch_after bench.old place scratch.old) }
{
    refusals::answered(take_turn(bench, place, scratch))
}

fn fetch_at(bench: &Bench, place: usize, res: &mut OptimizationResult) -> Result<(), Refusal>
    ensures { (answered result ≡ fetch_number bench.now place) × (res.new ≡ fetched_result bench.now place res.old) }
{
    if place > 3 {
        return Err(Refusal::NoSuchPlace);
    }
    rows::fetch_row(&bench.rows[place], res)
}

// The result of a finished job; its row stays. 2, 11, 12 and 14.
#[unsafe(no_mangle)]
pub extern "C" fn fetch(bench: &Bench, place: usize, res: &mut OptimizationResult) -> u32
    ensures { (result ≡ fetch_number bench.now place) × (res.new ≡ fetched_result bench.now place res.old) }
{
    refusals::answered(fetch_at(bench, place, res))
}

fn release_at(bench: &mut Bench, place: usize) -> Result<(), Refusal>
    ensures { (answered result ≡ release_number bench.old place) × (bench.new ≡ released_bench bench.old place) }
{
    if place > 3 {
        return Err(Refusal::NoSuchPlace);
    }
    rows::release_row(&mut bench.rows[place])
}

// The place becomes empty, all zero. 2 and 11.
#[unsafe(no_mangle)]
pub extern "C" fn release(bench: &mut Bench, place: usize) -> u32
    ensures { (result ≡ release_number bench.old place) × (bench.new ≡ released_bench bench.old place) }
{
    refusals::answered(release_at(bench, place))
}

// The places whose jobs are finished, fewest working turns first, equal ones by rising place. Refuses nothing.
#[unsafe(no_mangle)]
pub extern "C" fn finished_places(bench: &Bench) -> Finished
    ensures { result ≡ listing_of bench.now }
{
    finished::listed(bench)
}
