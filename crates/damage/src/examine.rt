// The rows that the run of a job leaves on its way: each of a row's entries, at each place where it has it in use, is set to
// values that are damage.
use crate::entries::{ENTRIES, Entry};
use crate::tally::{Count, Tally};
use crate::verdict;
use bench::Bench;
use held::HeldRow;
use jobs::JobRequest;

// A row that a run left, a bench that holds the same run's last row at each place, and the place for the damaged one.
#[derive(Clone, Copy)]
pub(crate) struct Case {
    pub row: HeldRow,
    pub bench: Bench,
    pub request: JobRequest,
    pub place: usize,
}

// The run's rows after 0, 1, 3, 7, .. turns, up to the last, which may come more than once. Each has the next place for the
// damaged row; the place to go next is two further.
pub(crate) fn examine_job(tally: &mut Tally, admitted: &Bench, request: JobRequest) {
    let mut bench = *admitted;
    play(&mut bench, u64::MAX);
    let last = bench.rows[0];
    bench = *admitted;
    for stop in 0..12 {
        let place = stop % 4;
        let case = Case {
            row: bench.rows[0],
            bench: Bench {
                rows: [last; 4],
                next_place: (place + 2) % 4,
            },
            request,
            place,
        };
        examine_row(tally, &case);
        play(&mut bench, 1 << stop);
    }
}

// So many turns of place 0, or as many as there are.
fn play(bench: &mut Bench, count: u64) {
    benchcalls::play_turns(bench, 0, count, &mut [0.0; 128]);
}

fn examine_row(tally: &mut Tally, case: &Case) {
    for (entry, count) in ENTRIES.iter().zip(tally) {
        examine_entry(count, case, entry);
    }
}

// There are 64 places at most.
fn examine_entry(count: &mut Count, case: &Case, entry: &Entry) {
    for i in 0..64 {
        if entry.uses.holds(&case.row, i) {
            examine_place(count, case, entry, i);
        }
    }
}

// There are five values at most.
fn examine_place(count: &mut Count, case: &Case, entry: &Entry, i: usize) {
    for v in 0..5 {
        let changed = entry.change.of(&case.row, i, v);
        count.add(verdict::is_right(case, changed, entry.change));
    }
}
