// A lens traced within limits. First by value, then lent.
ghost use Rattle.std.specs.Prelude.{◌≡◌, cond, ◌<◌, ◌≤◌, Some, None};
ghost use Rattle.refusals.specs.Numbers.{answered, numbered};
ghost use Rattle.intervals.specs.Calls.{lens_limits, limits_taken, limits_number, limits_as, limits_traced};

use crate::surfaces::{all_given, worked};
use intervals::{ThicknessLimits, TraceLimits};
use optics::OpticalPrescription;
use refusals::Refusal;

// What a lens whose trace is not refused comes to, where the limits are taken.
fn limits_of(
    prescription: OpticalPrescription,
    limits: ThicknessLimits,
    slot: usize,
) -> Option<TraceLimits>
    requires { (prescription.surface_count ≤ 16) × (slot < 4) }
    ensures { result ≡ cond (limits_taken prescription limits slot) (Some (lens_limits prescription limits slot)) None }
{
    if prescription.surface_count < 2 {
        return None;
    }
    if !all_given(limits, prescription.surface_count) {
        return None;
    }
    worked(prescription, limits, slot)
}

// Least and greatest track, and height and slope for each surface, by value.
pub fn limits_traced(
    prescription: OpticalPrescription,
    limits: ThicknessLimits,
    slot: usize,
) -> Result<TraceLimits, Refusal>
    ensures { numbered result ≡ limits_traced prescription limits slot }
{
    meritcalls::trace_refusal(prescription, slot, prescription.surface_count)?;
    limits_of(prescription, limits, slot).ok_or(Refusal::BadLimits)
}

// The same, lent: where it is refused the limits stay as they were.
pub fn trace_limits(
    prescription: OpticalPrescription,
    limits: ThicknessLimits,
    slot: usize,
    traced: &mut TraceLimits,
) -> Result<(), Refusal>
    ensures { (answered result ≡ limits_number prescription limits slot) × (traced.new ≡ limits_as traced.old prescription limits slot) }
{
    *traced = limits_traced(prescription, limits, slot)?;
    Ok(())
}
