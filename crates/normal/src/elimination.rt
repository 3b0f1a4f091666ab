// The solution of a system of p unknowns by elimination, in the order that document 01 fixes. The system stands in scratch, its
// right side as column p. What stands below the diagonal in a column that is done is left as it was: it is not read again.
ghost use Rattle.std.specs.Prelude.{◌≡◌, suc, ◌+◌, ◌-◌, ◌≤◌, ◌<◌, length, get_or};
ghost use Rattle.std.specs.Float.{nan};
ghost use Rattle.normal.specs.Layout.{scratch_length, system_place, most_variables};
ghost use Rattle.normal.specs.Elimination.{pivot_row};
ghost use Rattle.normal.specs.Scratch.{system_in, Solving};
ghost use Rattle.normal.specs.Loops.{parts_exchanged, pivot_brought, part_subtracted, row_reduced, rows_reduced, unknown_in, solved_upward, Eliminated};

use crate::layout::{SCRATCH, STEP, Unknowns, system_place};
use floats::abs;

// The row with the largest magnitude in column c, on or below the diagonal; the upper one on ties.
fn pivot_row(scratch: &[f64; SCRATCH], p: Unknowns, c: usize) -> usize
    requires { c < p.count }
    ensures { result ≡ pivot_row (system_in scratch.now) c (p.count - suc c) }
{
    let mut best = c;
    let mut most = abs(scratch[system_place(c, c)]);
    for r in c + 1..p.count {
        let size = abs(scratch[system_place(r, c)]);
        if size > most {
            best = r;
            most = size;
        }
    }
    best
}

// Exchanges the n numbers from a with those from b.
fn exchange(scratch: &mut [f64], a: usize, b: usize, n: usize)
    requires fact_1 { a + n ≤ b }
    requires fact_2 { b + n ≤ length scratch.old }
    ensures { scratch.new ≡ parts_exchanged a b n scratch.old }
{
    for k in 0..n {
        scratch.swap(a + k, b + k);
    }
}

// Brings the pivot of column c to the diagonal, and answers it.
fn bring_pivot(scratch: &mut [f64; SCRATCH], p: Unknowns, c: usize) -> f64
    requires { c < p.count }
    ensures fact_1 { result ≡ get_or scratch.new (system_place c c) nan }
    ensures fact_2 { scratch.new ≡ pivot_brought p.count c scratch.old }
{
    let best = pivot_row(scratch, p, c);
    let here = system_place(c, c);
    if best == c {
        return scratch[here];
    }
    exchange(scratch, here, system_place(best, c), p.count + 1 - c);
    scratch[here]
}

// Subtracts factor × the n numbers from a from those from b.
fn subtract(scratch: &mut [f64], a: usize, b: usize, n: usize, factor: f64)
    requires fact_1 { a + n ≤ b }
    requires fact_2 { b + n ≤ length scratch.old }
    ensures { scratch.new ≡ part_subtracted a b n factor scratch.old }
{
    for k in 0..n {
        scratch[b + k] = scratch[b + k] - factor * scratch[a + k];
    }
}

// Subtracts row c from row r.
fn reduce_row(scratch: &mut [f64; SCRATCH], p: Unknowns, c: usize, r: usize, pivot: f64)
    requires fact_1 { c < r }
    requires fact_2 { r < p.count }
    ensures { scratch.new ≡ row_reduced p.count c pivot r scratch.old }
{
    let factor = scratch[system_place(r, c)] / pivot;
    subtract(
        scratch,
        system_place(c, c + 1),
        system_place(r, c + 1),
        p.count - c,
        factor,
    );
}

// Subtracts row c from each row below it.
fn reduce_below(scratch: &mut [f64; SCRATCH], p: Unknowns, c: usize, pivot: f64)
    requires { c < p.count }
    ensures { scratch.new ≡ rows_reduced p.count c pivot (p.count - suc c) scratch.old }
{
    for r in c + 1..p.count {
        reduce_row(scratch, p, c, r, pivot);
    }
}

// Column by column; a zero pivot means no solution.
fn eliminate(scratch: &mut [f64; SCRATCH], p: Unknowns) -> bool
    ensures { Eliminated p.count scratch.old scratch.new result }
{
    for c in 0..p.count {
        let pivot = bring_pivot(scratch, p, c);
        if pivot == 0.0 {
            return false;
        }
        reduce_below(scratch, p, c, pivot);
    }
    true
}

// Unknown i, where those behind it are known.
fn unknown(scratch: &[f64; SCRATCH], p: Unknowns, i: usize) -> f64
    requires { i < p.count }
    ensures { result ≡ unknown_in p.count scratch.now i }
{
    let mut rest = scratch[system_place(i, p.count)];
    for k in i + 1..p.count {
        rest = rest - scratch[system_place(i, k)] * scratch[STEP + k];
    }
    rest / scratch[system_place(i, i)]
}

// All unknowns, from the last.
fn solve_upward(scratch: &mut [f64; SCRATCH], p: Unknowns)
    ensures { scratch.new ≡ solved_upward p.count scratch.old }
{
    for i in (0..p.count).rev() {
        scratch[STEP + i] = unknown(scratch, p, i);
    }
}

// Solves the system that stands in its part, and answers whether it has a solution.
pub(crate) fn solve_part(scratch: &mut [f64; SCRATCH], p: Unknowns) -> bool
    ensures { Solving p.count scratch.old scratch.new result }
{
    if !eliminate(scratch, p) {
        return false;
    }
    solve_upward(scratch, p);
    true
}

// Solves the system that stands in scratch, and answers whether it has a solution, which then stands there too, as the step.
// dls.rs: `a_mat.lu()` and `lu.solve`
pub fn solve(scratch: &mut [f64], p: usize) -> bool
    requires fact_1 { scratch_length ≤ length scratch.old }
    requires fact_2 { p ≤ most_variables }
    ensures { Solving p scratch.old scratch.new result }
{
    match scratch.first_chunk_mut::<SCRATCH>() {
        Some(part) => solve_part(part, Unknowns { count: p }),
        None => false,
    }
}
