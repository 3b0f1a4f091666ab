// The step of one attempt, and the candidate that it leads to.
ghost use Rattle.std.specs.Prelude.{◌≡◌, ◌≤◌, ◌<◌, ℕ, ◌+◌, length, get_or};
ghost use Rattle.std.specs.Float.{nan};
ghost use Rattle.lists.specs.All.{all_below};
ghost use Rattle.floats.specs.Basic.{finite_of};
ghost use Rattle.normal.specs.Layout.{scratch_length, step_at, most_variables};
ghost use Rattle.normal.specs.Damping.{damped_system};
ghost use Rattle.normal.specs.Scratch.{product_in, gradient_in, Attempt};
ghost use Rattle.normal.specs.Loops.{with_system_row, with_system};

use crate::damping::{Damping, damped_diagonal};
use crate::elimination::solve_part;
use crate::layout::{GRADIENT, PRODUCT, SCRATCH, STEP, Unknowns, place, system_place};
use floats::is_finite;

// Row i and column j of the damped system; column p is the right side.
fn system_entry(scratch: &[f64; SCRATCH], p: Unknowns, damping: f64, i: usize, j: usize) -> f64
    requires fact_1 { i < p.count }
    requires fact_2 { j ≤ p.count }
    ensures { result ≡ damped_system p.count damping (product_in scratch.now) (gradient_in scratch.now) i j }
{
    if j == p.count {
        return -scratch[GRADIENT + i];
    }
    let h = scratch[PRODUCT + place(i, j)];
    if i == j {
        return damped_diagonal(damping, h);
    }
    h
}

fn system_row(scratch: &mut [f64; SCRATCH], p: Unknowns, damping: f64, i: usize)
    requires { i < p.count }
    ensures { scratch.new ≡ with_system_row p.count damping i scratch.old }
{
    let first = system_place(i, 0);
    for j in 0..p.count + 1 {
        scratch[first + j] = system_entry(scratch, p, damping, i, j);
    }
}

// Lays out the damped system.
// dls.rs: `a_mat`, and `-g_vec` as its last column
fn system(scratch: &mut [f64; SCRATCH], p: Unknowns, damping: f64)
    ensures { scratch.new ≡ with_system p.count damping p.count scratch.old }
{
    for i in 0..p.count {
        system_row(scratch, p, damping, i);
    }
}

// dls.rs: `dx.iter().all(|&v| v.is_finite())`
fn all_finite(scratch: &[f64; SCRATCH], p: Unknowns) -> bool
    ensures { result ≡ all_below (λ (k : ℕ). finite_of (get_or scratch.now (step_at + k) nan)) p.count }
{
    scratch[STEP..STEP + p.count].iter().all(|x| is_finite(*x))
}

// The attempt, in the part of scratch that a turn uses.
fn attempt_part(scratch: &mut [f64; SCRATCH], p: Unknowns, damping: f64) -> bool
    ensures { Attempt p.count damping scratch.old scratch.new result }
{
    system(scratch, p, damping);
    solve_part(scratch, p) && all_finite(scratch, p)
}

// Solves the damped system of the product matrix and the gradient that stand in scratch, and answers whether there is a step,
// which then stands there too.
// dls.rs: an attempt, as far as `dx`
pub fn attempt_step(scratch: &mut [f64], p: usize, damping: Damping) -> bool
    requires fact_1 { scratch_length ≤ length scratch.old }
    requires fact_2 { p ≤ most_variables }
    ensures { Attempt p damping.value scratch.old scratch.new result }
{
    match scratch.first_chunk_mut::<SCRATCH>() {
        Some(part) => attempt_part(part, Unknowns { count: p }, damping.value),
        None => false,
    }
}
