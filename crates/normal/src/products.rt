// J^T J, J^T r and the norm. Every sum starts at +0.0 and adds in rising order.
ghost use Rattle.std.specs.Prelude.{◌≡◌, suc, ◌≤◌, ◌<◌, length};
ghost use Rattle.normal.specs.Layout.{scratch_length, most_operands, most_variables};
ghost use Rattle.normal.specs.Jacobian.{jacobian_at, residual_at};
ghost use Rattle.normal.specs.Products.{normal_product, gradient_of, norm_of};
ghost use Rattle.normal.specs.Scratch.{gradient_in, Equations};
ghost use Rattle.normal.specs.Loops.{with_product, with_product_row, with_products, with_gradient};

use crate::layout::{GRADIENT, PRODUCT, SCRATCH, Unknowns, jacobian_place, place};
use roots::sqrt;

// The first m numbers of each column of a Jacobian that is held flat.
#[derive(Clone, Copy)]
struct Jacobian<'a> {
    flat: &'a [f64; 96],
    m: usize,
    ghost few: { m ≤ most_operands },
}

impl<'a> Jacobian<'a> {
    // The product of columns i and j.
    fn column_product(self, i: usize, j: usize) -> f64
        requires fact_1 { i < most_variables }
        requires fact_2 { j < most_variables }
        ensures { result ≡ normal_product self.entry.m (jacobian_at self.entry.flat.now) i j }
    {
        let a = jacobian_place(0, i);
        let b = jacobian_place(0, j);
        let mut dot = 0.0;
        for k in 0..self.m {
            dot = dot + self.flat[a + k] * self.flat[b + k];
        }
        dot
    }

    // The product of column i and the residuals.
    fn column_gradient(self, residuals: &[f64; 12], i: usize) -> f64
        requires { i < most_variables }
        ensures { result ≡ gradient_of self.entry.m (jacobian_at self.entry.flat.now) (residual_at residuals.now) i }
    {
        let a = jacobian_place(0, i);
        let mut sum = 0.0;
        for k in 0..self.m {
            sum = sum + self.flat[a + k] * residuals[k];
        }
        sum
    }
}

// The product of columns i and j, which is also that of j and i.
fn write_product(scratch: &mut [f64; SCRATCH], jacobian: Jacobian, i: usize, j: usize)
    requires fact_1 { i < most_variables }
    requires fact_2 { j < most_variables }
    ensures { scratch.new ≡ with_product jacobian.entry.m (jacobian_at jacobian.entry.flat.now) i j scratch.old }
{
    let sum = jacobian.column_product(i, j);
    let here = PRODUCT + place(i, j);
    scratch[here] = sum;
}

// Row i up to the diagonal.
fn product_row(scratch: &mut [f64; SCRATCH], jacobian: Jacobian, i: usize)
    requires { i < most_variables }
    ensures { scratch.new ≡ with_product_row jacobian.entry.m (jacobian_at jacobian.entry.flat.now) i (suc i) scratch.old }
{
    for j in 0..i + 1 {
        write_product(scratch, jacobian, i, j);
    }
}

fn product(scratch: &mut [f64; SCRATCH], jacobian: Jacobian, p: Unknowns)
    ensures { scratch.new ≡ with_products jacobian.entry.m (jacobian_at jacobian.entry.flat.now) p.count scratch.old }
{
    for i in 0..p.count {
        product_row(scratch, jacobian, i);
    }
}

fn gradient(scratch: &mut [f64; SCRATCH], jacobian: Jacobian, residuals: &[f64; 12], p: Unknowns)
    ensures { scratch.new
        ≡ with_gradient jacobian.entry.m (jacobian_at jacobian.entry.flat.now) (residual_at residuals.now) p.count scratch.old }
{
    for i in 0..p.count {
        scratch[GRADIENT + i] = jacobian.column_gradient(residuals, i);
    }
}

// The norm of the gradient.
fn gradient_norm(scratch: &[f64; SCRATCH], p: Unknowns) -> f64
    ensures { result ≡ norm_of p.count (gradient_in scratch.now) }
{
    let mut sum = 0.0;
    for k in 0..p.count {
        let g = scratch[GRADIENT + k];
        sum = sum + g * g;
    }
    sqrt(sum)
}

// The normal equations, in the part of scratch that a turn uses.
fn equations_part(
    scratch: &mut [f64; SCRATCH],
    jacobian: Jacobian,
    residuals: &[f64; 12],
    p: Unknowns,
) -> f64
    ensures { Equations jacobian.entry.m p.count (jacobian_at jacobian.entry.flat.now) (residual_at residuals.now) scratch.old scratch.new result }
{
    product(scratch, jacobian, p);
    gradient(scratch, jacobian, residuals, p);
    gradient_norm(scratch, p)
}

// Writes the product matrix and the gradient, and answers the gradient's norm.
pub fn normal_equations<'a>(
    scratch: &mut [f64],
    jacobian: &'a [f64; 96],
    residuals: &'a [f64; 12],
    m: usize,
    p: usize,
) -> f64
    requires fact_1 { scratch_length ≤ length scratch.old }
    requires fact_2 { m ≤ most_operands }
    requires fact_3 { p ≤ most_variables }
    ensures { Equations m p (jacobian_at jacobian.now) (residual_at residuals.now) scratch.old scratch.new result }
{
    match scratch.first_chunk_mut::<SCRATCH>() {
        Some(part) => equations_part(
            part,
            Jacobian { flat: jacobian, m },
            residuals,
            Unknowns { count: p },
        ),
        None => 0.0,
    }
}
