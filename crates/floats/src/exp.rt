// E, the stand-in for the exponential: sixteen terms of its series at x / 1024, squared ten times.
ghost use Rattle.std.specs.Prelude.{◌≡◌};
ghost use Rattle.floats.specs.Constants.{one64};
ghost use Rattle.floats.specs.Exp.{exp_of, series, squares};

// 1 + y * s / k, for k from 16 down to 1
fn terms(y: f64) -> f64
    ensures { result ≡ series 16 y one64 }
{
    let mut s = 1.0;
    for k in (1..=16u32).rev() {
        s = 1.0 + (y * s) / f64::from(k);
    }
    s
}

fn power(x: f64) -> f64
    ensures { result ≡ squares 10 x }
{
    let mut s = x;
    for _ in 0..10u32 {
        s = s * s;
    }
    s
}

// 0 below -700, 1 for a NaN and above zero, and otherwise near e^x.
pub fn exp_stand_in(x: f64) -> f64
    ensures { result ≡ exp_of x }
{
    if x < -700.0 {
        return 0.0;
    }
    if x != x {
        return 1.0;
    }
    if x > 0.0 {
        return 1.0;
    }
    power(terms(x / 1024.0))
}
