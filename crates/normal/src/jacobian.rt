// A column of the Jacobian by central differences.
ghost use Rattle.std.specs.Prelude.{◌≡◌, ◌≤◌, ◌<◌};
ghost use Rattle.normal.specs.Layout.{most_operands, most_variables};
ghost use Rattle.normal.specs.Jacobian.{delta_of, plus_value, minus_value, denominator_of, jacobian_entry, column_of, with_column};

use crate::layout::jacobian_place;
use floats::{abs, clamp, is_finite, max};

// By how much a parameter is moved to either side.
pub fn delta(x0: f64, relative: f64, size: f64) -> f64
    ensures { result ≡ delta_of x0 relative size }
{
    max(max(abs(x0) * relative, size), 1e-7)
}

// The parameter moved up, within its bounds.
// dls.rs: `p_plus[param_idx]`
pub fn plus_value(x0: f64, by: f64, lo: f64, hi: f64) -> f64
    ensures { result ≡ plus_value x0 by lo hi }
{
    clamp(x0 + by, lo, hi)
}

// The parameter moved down, within its bounds.
// dls.rs: `p_minus[param_idx]`
pub fn minus_value(x0: f64, by: f64, lo: f64, hi: f64) -> f64
    ensures { result ≡ minus_value x0 by lo hi }
{
    clamp(x0 - by, lo, hi)
}

// What lies between the two, as the steps that were taken.
// dls.rs: `denom`
pub fn denominator(x0: f64, plus: f64, minus: f64) -> f64
    ensures { result ≡ denominator_of x0 plus minus }
{
    (plus - x0) + (x0 - minus)
}

// dls.rs: `d_res`
fn jacobian_entry(plus: f64, minus: f64, between: f64) -> f64
    ensures { result ≡ jacobian_entry plus minus between }
{
    if abs(between) > 1e-14 {
        let difference = plus - minus;
        if is_finite(difference) {
            return clamp(difference / between, -1e8, 1e8);
        }
        return 0.0;
    }
    0.0
}

// Writes column q for m operands, out of the residuals on either side.
// dls.rs: `j_mat[(i, param_idx)]`
pub fn jacobian_column<'a>(
    jacobian: &mut [f64; 96],
    q: usize,
    plus: &'a [f64; 12],
    minus: &'a [f64; 12],
    m: usize,
    between: f64,
)
    requires fact_1 { q < most_variables }
    requires fact_2 { m ≤ most_operands }
    ensures { jacobian.new ≡ with_column jacobian.old q (column_of plus.now minus.now m between) }
{
    let first = jacobian_place(0, q);
    for i in 0..m {
        jacobian[first + i] = jacobian_entry(plus[i], minus[i], between);
    }
}
