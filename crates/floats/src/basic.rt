// Rust's methods on an `f64`. Of std's own, `abs` branches, which costs time where this is called most; `clamp` asks its caller that the bounds be in order;
// and `max` and `min` may give either of two equal numbers, as 0 and -0, where results have to be the same bit for bit.
ghost use Rattle.std.specs.Prelude.{◌≡◌};
ghost use Rattle.floats.specs.Basic.{magnitude, clamp_of, max_of, min_of, finite_of};

// x with the top bit of its pattern cleared, without a branch. A NaN, whose bits cannot be read, is kept out by the index and stays one.
pub fn abs(x: f64) -> f64
    ensures { result ≡ magnitude x }
{
    let number = (x == x) as usize;
    let taken = [0.0, x];
    let bits = f64::to_bits(taken[number]) % 0x8000_0000_0000_0000;
    let given = [x, f64::from_bits(bits)];
    given[number]
}

// lo where x is below it, hi where x is above it, and x otherwise, also where x is a NaN.
pub fn clamp(x: f64, lo: f64, hi: f64) -> f64
    ensures { result ≡ clamp_of x lo hi }
{
    if x < lo {
        lo
    } else if x > hi {
        hi
    } else {
        x
    }
}

// The larger, and where one is a NaN the other.
pub fn max(x: f64, y: f64) -> f64
    ensures { result ≡ max_of x y }
{
    if x != x {
        y
    } else if x < y {
        y
    } else {
        x
    }
}

// The smaller, and where one is a NaN the other.
pub fn min(x: f64, y: f64) -> f64
    ensures { result ≡ min_of x y }
{
    if x != x {
        y
    } else if y < x {
        y
    } else {
        x
    }
}

// Neither a NaN nor an infinity.
pub fn is_finite(x: f64) -> bool
    ensures { result ≡ finite_of x }
{
    x.is_finite()
}
