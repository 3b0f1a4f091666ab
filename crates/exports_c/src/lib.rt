// A lens by itself for callers in C or Rust: a static library, whose exports call those of `exports` and promise what they do.
// Stands on `exports`; called from C or Rust alone.
#![tactic(auto)]

ghost use Rattle.std.specs.Prelude.{◌≡◌, length};
ghost use Rattle.floats.specs.Exp.{exp_of};
ghost use Rattle.floats.specs.Sqrt.{sqrt_of};
ghost use Rattle.merit.specs.Calls.{traced_rays};
ghost use Rattle.intervals.specs.Calls.{limits_number, limits_as};
ghost use Rattle.exports.specs.Abi.{abi_number};
ghost use Rattle.exports.specs.Lenses.{lens_of, evaluate_record_number, evaluated_record, trace_record_number};

use intervals::{ThicknessLimits, TraceLimits};
use jobs::JobRecord;
use merit::MeritEvaluation;
use optics::ParaxialRay;

#[unsafe(no_mangle)]
pub extern "C" fn lens_abi() -> u32
    ensures { result ≡ abi_number }
{
    exports::lens_abi()
}

#[unsafe(no_mangle)]
pub extern "C" fn lens_sqrt(x: f64) -> f64
    ensures { result ≡ sqrt_of x }
{
    exports::lens_sqrt(x)
}

#[unsafe(no_mangle)]
pub extern "C" fn lens_exp_stand_in(x: f64) -> f64
    ensures { result ≡ exp_of x }
{
    exports::lens_exp_stand_in(x)
}

#[unsafe(no_mangle)]
pub extern "C" fn lens_evaluate(asked: &JobRecord, evaluation: &mut MeritEvaluation) -> u32
    ensures { (result ≡ evaluate_record_number asked.now) × (evaluation.new ≡ evaluated_record evaluation.old asked.now) }
{
    exports::lens_evaluate(asked, evaluation)
}

#[unsafe(no_mangle)]
pub extern "C" fn lens_trace(asked: &JobRecord, slot: usize, rays: &mut [ParaxialRay]) -> u32
    ensures { (result ≡ trace_record_number asked.now slot (length rays.old))
        × (rays.new ≡ traced_rays (lens_of asked.now) slot rays.old) }
{
    exports::lens_trace(asked, slot, rays)
}

#[unsafe(no_mangle)]
pub extern "C" fn lens_trace_limits(
    asked: &JobRecord,
    limits: &ThicknessLimits,
    slot: usize,
    traced: &mut TraceLimits,
) -> u32
    ensures { (result ≡ limits_number (lens_of asked.now) limits.now slot)
        × (traced.new ≡ limits_as traced.old (lens_of asked.now) limits.now slot) }
{
    exports::lens_trace_limits(asked, limits, slot, traced)
}
