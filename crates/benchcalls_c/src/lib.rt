// The bench for callers in C: a static library, whose exports call those of `benchcalls` and promise what they do.
// Stands on `benchcalls`; called from C alone.
#![tactic(auto)]

ghost use Rattle.std.specs.Prelude.{◌≡◌, length};
ghost use Rattle.bench.specs.Calls.{turn_number, turned_bench, scratch_after, fetch_number, fetched_result, release_number, released_bench, listing_of};
ghost use Rattle.bench.specs.Calls.{dealt_of, dealt_bench, dealt_scratch};
ghost use Rattle.records.specs.Exported.{admit_record_number, admitted_record_bench};

use bench::{Bench, Dealt, Finished};
use records::RequestRecord;
use runs::OptimizationResult;

#[unsafe(no_mangle)]
pub extern "C" fn admit_record(bench: &mut Bench, place: usize, asked: &RequestRecord) -> u32
    ensures { (result ≡ admit_record_number bench.old place asked.now)
        × (bench.new ≡ admitted_record_bench bench.old place asked.now) }
{
    benchcalls::admit_record(bench, place, asked)
}

#[unsafe(no_mangle)]
pub extern "C" fn turn(bench: &mut Bench, place: usize, scratch: &mut [f64]) -> u32
    ensures { (result ≡ turn_number bench.old place (length scratch.old))
        × (bench.new ≡ turned_bench bench.old place (length scratch.old))
        × (scratch.new ≡ scratch_after bench.old place scratch.old) }
{
    benchcalls::turn(bench, place, scratch)
}

#[unsafe(no_mangle)]
pub extern "C" fn deal(bench: &mut Bench, turns: u16, scratch: &mut [f64]) -> Dealt
    ensures { (result ≡ dealt_of bench.old turns (length scratch.old))
        × (bench.new ≡ dealt_bench bench.old turns (length scratch.old))
        × (scratch.new ≡ dealt_scratch bench.old turns scratch.old) }
{
    benchcalls::deal(bench, turns, scratch)
}

#[unsafe(no_mangle)]
pub extern "C" fn fetch(bench: &Bench, place: usize, res: &mut OptimizationResult) -> u32
    ensures { (result ≡ fetch_number bench.now place) × (res.new ≡ fetched_result bench.now place res.old) }
{
    benchcalls::fetch(bench, place, res)
}

#[unsafe(no_mangle)]
pub extern "C" fn release(bench: &mut Bench, place: usize) -> u32
    ensures { (result ≡ release_number bench.old place) × (bench.new ≡ released_bench bench.old place) }
{
    benchcalls::release(bench, place)
}

#[unsafe(no_mangle)]
pub extern "C" fn finished_places(bench: &Bench) -> Finished
    ensures { result ≡ listing_of bench.now }
{
    benchcalls::finished_places(bench)
}
