// Functions for callers in C or Rust, through `exports_c`: a lens by itself, and thin ones, each with its callee's contract.
// Stands on `meritcalls`, `intervalcalls` and `jobs`; called by `exports_c` alone.
#![tactic(auto)]

ghost use Rattle.std.specs.Prelude.{◌≡◌};
ghost use Rattle.exports.specs.Abi.{abi_number};
ghost use Rattle.floats.specs.Exp.{exp_of};
ghost use Rattle.floats.specs.Sqrt.{sqrt_of};

mod lenses;
mod lent;

pub use lent::{lens_evaluate, lens_trace, lens_trace_limits};

// The number of the records' layout: a caller holds it against the header's.
#[unsafe(no_mangle)]
pub extern "C" fn lens_abi() -> u32
    ensures { result ≡ abi_number }
{
    5
}

#[unsafe(no_mangle)]
pub extern "C" fn lens_sqrt(x: f64) -> f64
    ensures { result ≡ sqrt_of x }
{
    roots::sqrt(x)
}

#[unsafe(no_mangle)]
pub extern "C" fn lens_exp_stand_in(x: f64) -> f64
    ensures { result ≡ exp_of x }
{
    floats::exp_stand_in(x)
}
