// What the calls must answer on a bench that holds a changed row, and what they must leave alone.
use crate::change::Change;
use crate::deals;
use crate::examine::Case;
use bench::Bench;
use held::HeldRow;
use jobs::JobRequest;
use optics::OpticalSurface;
use refusals::Refusal;
use runs::OptimizationResult;

pub(crate) fn is_right(case: &Case, changed: HeldRow, change: Change) -> bool {
    let bench = &with_row(&case.bench, case.place, changed);
    match change {
        Change::Taken | Change::NoFollower => is_taken(bench, case.place),
        Change::Emptied => is_empty(bench, case.place, case.request),
        _ => is_refused(bench, case.place, case.request),
    }
}

// A turn and a fetch are refused so and change nothing, and the place is not listed.
fn is_out(bench: &Bench, place: usize, refusal: Refusal) -> bool {
    let number = Some(refusal.number());
    turn_number(bench, place) == number
        && fetch_number(bench, place) == number
        && lists_others(bench, place)
}

// Whether an admission answers this and leaves that bench.
fn admits(
    bench: &Bench,
    place: usize,
    request: JobRequest,
    wanted: Result<(), Refusal>,
    after: &Bench,
) -> bool {
    let mut left = *bench;
    let answer = benchcalls::admit(&mut left, place, request);
    refusals::answered(answer) == refusals::answered(wanted) && same::same_benches(&left, after)
}

// The same of a release.
fn releases(bench: &Bench, place: usize, wanted: Result<(), Refusal>, after: &Bench) -> bool {
    let mut left = *bench;
    benchcalls::release(&mut left, place) == refusals::answered(wanted)
        && same::same_benches(&left, after)
}

// Damage: a turn and a fetch give 12, an admission 10, the place is not listed, and a release empties it.
fn is_refused(bench: &Bench, place: usize, request: JobRequest) -> bool {
    let zero = benchcalls::empty_bench().rows[0];
    is_out(bench, place, Refusal::Damaged)
        && admits(bench, place, request, Err(Refusal::Taken), bench)
        && releases(bench, place, Ok(()), &with_row(bench, place, zero))
        && deals::refuses(bench)
}

// An empty place: a turn, a fetch and a release give 11, and an admission leaves nothing of what the row had.
fn is_empty(bench: &Bench, place: usize, request: JobRequest) -> bool {
    let mut admitted = benchcalls::empty_bench();
    let is_admitted = benchcalls::admit(&mut admitted, place, request).is_ok();
    let fresh = admitted.rows[place % 4];
    is_admitted
        && is_out(bench, place, Refusal::Empty)
        && releases(bench, place, Err(Refusal::Empty), bench)
        && admits(
            bench,
            place,
            request,
            Ok(()),
            &with_row(bench, place, fresh),
        )
        && deals::deals_none(bench)
}

// No damage: a place is at its end or not, and all calls say the same of it.
fn is_taken(bench: &Bench, place: usize) -> bool {
    let count = finished::listed(bench).count;
    let turn = turn_number(bench, place);
    let fetch = fetch_number(bench, place);
    let agree = if turn == Some(0) {
        fetch == Some(Refusal::Unfinished.number()) && count == 3 && deals::serves(bench, place)
    } else {
        turn == Some(Refusal::Finished.number())
            && fetch == Some(0)
            && count == 4
            && deals::deals_none(bench)
    };
    agree && deals::refuses_past(bench)
}

// The number of a turn, if it leaves what it must: nothing is changed where it is refused, and else scratch is cleared.
fn turn_number(bench: &Bench, place: usize) -> Option<u32> {
    let mut scratch = [0.5; 256];
    let mut left = *bench;
    let number = benchcalls::turn(&mut left, place, &mut scratch);
    let is_done = number == 0;
    let is_kept = is_done || same::same_benches(&left, bench);
    (is_kept && is_scratch(&scratch, is_done)).then_some(number)
}

// As a call leaves it: the first 128 are +0.0 if a turn was taken, and all others what they were (request 11).
pub(crate) fn is_scratch(scratch: &[f64; 256], is_cleared: bool) -> bool {
    let first = if is_cleared { 0.0 } else { 0.5 };
    same::are_same(&scratch[..128], &[first; 128]) && same::are_same(&scratch[128..], &[0.5; 128])
}

// The number of a fetch, if it leaves what it must: the result is not changed where it is refused.
fn fetch_number(bench: &Bench, place: usize) -> Option<u32> {
    let mut res = marked();
    let number = benchcalls::fetch(bench, place, &mut res);
    let is_kept = number == 0 || same::same_results(&res, &marked());
    is_kept.then_some(number)
}

// The listing has the three other places: 0 to 3 but this one make 6 less this one.
fn lists_others(bench: &Bench, place: usize) -> bool {
    let finished = finished::listed(bench);
    let sum = finished
        .places
        .iter()
        .fold(place, |sum, x| sum.wrapping_add(*x));
    finished.count == 3 && sum == 6
}

fn with_row(bench: &Bench, place: usize, row: HeldRow) -> Bench {
    let mut changed = *bench;
    changed.rows[place % 4] = row;
    changed
}

// A result that no run leaves.
fn marked() -> OptimizationResult {
    let surface = OpticalSurface {
        radius_mm: f64::NAN,
        conic_constant: 0.25,
        thickness_mm: 0.125,
        semi_diameter_mm: -0.0,
    };
    OptimizationResult {
        surfaces: [surface; 16],
        values: [0.75; 12],
        residuals: [0.875; 12],
        initial_merit: 0.1,
        final_merit: 0.2,
        iterations: 77,
        converged: 2,
    }
}
