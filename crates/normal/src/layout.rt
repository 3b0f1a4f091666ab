// Where the parts of scratch stand, and where an entry stands in its part. No other file names these numbers.
ghost use Rattle.std.specs.Prelude.{◌≡◌, ◌+◌, ◌*◌, ◌≤◌, ◌<◌};
ghost use Rattle.normal.specs.Layout.{row_start, place, system_place, jacobian_place, product_length, most_operands, most_variables};

// The `f64` that a turn uses.
pub const SCRATCH: usize = 128;

// J^T J, its lower triangle.
pub const PRODUCT: usize = 0;

// The matrix being solved, with its right side.
pub const SYSTEM: usize = 36;

// A row of it has room for the right side too.
pub const SYSTEM_WIDTH: usize = 9;

// J^T r.
pub const GRADIENT: usize = 108;

// The solution of the damped system.
pub const STEP: usize = 116;

// How many unknowns a system has. A number by value and no struct with scratch in it: what a call can write, it has to say that it kept.
#[derive(Clone, Copy)]
pub(crate) struct Unknowns {
    pub(crate) count: usize,
    pub(crate) ghost few: { count ≤ most_variables },
}

// Where row i of the triangle begins: behind rows of 1, 2, .., i entries.
fn row_start(i: usize) -> usize
    requires { i < most_variables }
    ensures { result ≡ row_start i }
{
    i * (i + 1) / 2
}

// The product of columns i and j of the Jacobian, in its part; that of j and i stands there too.
pub fn place(i: usize, j: usize) -> usize
    requires fact_1 { i < most_variables }
    requires fact_2 { j < most_variables }
    ensures fact_1 { result ≡ place i j }
    ensures fact_2 { result < product_length }
{
    if i < j {
        return row_start(j) + i;
    }
    row_start(i) + j
}

// Row i and column j of the matrix being solved.
pub fn system_place(i: usize, j: usize) -> usize
    requires { (i < most_variables) × (j ≤ most_variables) }
    ensures { result ≡ system_place i j }
{
    SYSTEM + (i * SYSTEM_WIDTH + j)
}

// Operand i in column q of the flat Jacobian.
pub(crate) fn jacobian_place(i: usize, q: usize) -> usize
    requires { (i < most_operands) × (q < most_variables) }
    ensures { result ≡ jacobian_place i q }
{
    q * 12 + i
}
