// The square root of an `f64`, rounded to the nearest `f64`: std's, under a contract by the definition of floats/specs/Sqrt.antt.
// Stands on `floats`, which has that definition, and on `floatlaws`, which proves that the two are one (`std_root`); called wherever a root is taken, and by
// `exports`.
#![tactic(auto)]

ghost use Rattle.std.specs.Prelude.{◌≡◌};
ghost use Rattle.floats.specs.Sqrt.{sqrt_of};

// The square root of x, rounded to the nearest `f64`.
pub fn sqrt(x: f64) -> f64
    ensures { result ≡ sqrt_of x }
{
    x.sqrt()
}
