// A lens by itself for a caller in C: its record is lent, and what is filled.
ghost use Rattle.std.specs.Prelude.{◌≡◌, length};
ghost use Rattle.intervals.specs.Calls.{limits_number, limits_as};
ghost use Rattle.merit.specs.Calls.{traced_rays};
ghost use Rattle.exports.specs.Lenses.{lens_of, evaluate_record_number, evaluated_record, trace_record_number};

use crate::lenses;
use intervals::{ThicknessLimits, TraceLimits};
use jobs::JobRecord;
use merit::MeritEvaluation;
use optics::ParaxialRay;

// The values, residuals and merit of the record's lens under its operands. 1, 3 and 5.
#[unsafe(no_mangle)]
pub extern "C" fn lens_evaluate(asked: &JobRecord, evaluation: &mut MeritEvaluation) -> u32
    ensures { (result ≡ evaluate_record_number asked.now) × (evaluation.new ≡ evaluated_record evaluation.old asked.now) }
{
    refusals::answered(lenses::evaluate(*asked, evaluation))
}

// The paraxial rays of the record's lens in a slot, one per surface. 1, 3 and 5, and 100 where there are fewer than two surfaces.
#[unsafe(no_mangle)]
pub extern "C" fn lens_trace(asked: &JobRecord, slot: usize, rays: &mut [ParaxialRay]) -> u32
    ensures { (result ≡ trace_record_number asked.now slot (length rays.old))
        × (rays.new ≡ traced_rays (lens_of asked.now) slot rays.old) }
{
    let prescription = lenses::lens_of(asked);
    lenses::number_of(meritcalls::trace(prescription, slot, rays))
}

// The track, heights and slopes of the record's lens in a slot, with each thickness within its limits: least and greatest. 1, 3, 5 and 19.
#[unsafe(no_mangle)]
pub extern "C" fn lens_trace_limits(
    asked: &JobRecord,
    limits: &ThicknessLimits,
    slot: usize,
    traced: &mut TraceLimits,
) -> u32
    ensures { (result ≡ limits_number (lens_of asked.now) limits.now slot)
        × (traced.new ≡ limits_as traced.old (lens_of asked.now) limits.now slot) }
{
    let prescription = lenses::lens_of(asked);
    refusals::answered(intervalcalls::trace_limits(prescription, *limits, slot, traced))
}
