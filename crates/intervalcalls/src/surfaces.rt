// The trace of one wavelength slot with every thickness within its limits.
ghost use Rattle.std.specs.Prelude.{◌≡◌, ◌<◌, ◌≤◌};
ghost use Rattle.intervals.specs.Limits.{start, passed_as};
ghost use Rattle.intervals.specs.Calls.{given_taken, all_given, worked_as};

use crate::ends::{difference, ends_finite, exact, is_crossed, product, quotient, sum};
use intervals::{ArrivingLimits, Interval, PassedLimits, ThicknessLimits, TraceLimits};
use optics::OpticalPrescription;

// The ray in front of the first surface.
fn start_of(pupil: f64) -> ArrivingLimits
    ensures { result ≡ start pupil }
{
    ArrivingLimits {
        y: exact(pupil * 0.5),
        u: exact(0.0),
        n: 1.0,
    }
}

// Refraction at a surface with `index` behind it, then transfer over the thickness to the next.
fn passed(ray: ArrivingLimits, thickness: Interval, radius: f64, index: f64) -> PassedLimits
    ensures { result ≡ passed_as thickness radius index ray }
{
    let power = (index - ray.n) * optics::curvature_of(radius);
    let n = exact(ray.n);
    let p = exact(power);
    let carried = product(n, ray.u);
    let bent = product(ray.y, p);
    let left = difference(carried, bent);
    let slope = quotient(left, index);
    let transfer = product(thickness, slope);
    let height = sum(ray.y, transfer);
    PassedLimits {
        ray: ArrivingLimits {
            y: height,
            u: slope,
            n: index,
        },
        refracted: (ends_finite(carried) & ends_finite(bent))
            & (ends_finite(left) & ends_finite(slope)),
        transferred: ends_finite(transfer) & ends_finite(height),
    }
}

fn is_given(limits: Interval) -> bool
    ensures { result ≡ given_taken limits }
{
    !is_crossed(limits) && ends_finite(limits)
}

// Whether the limits of every surface in use are finite and not crossed.
pub(crate) fn all_given(limits: ThicknessLimits, count: usize) -> bool
    requires { count ≤ 16 }
    ensures { result ≡ all_given limits count }
{
    limits.thicknesses.iter().take(count).all(|t| is_given(*t))
}

// Every surface in turn, as far as every interval has finite ends.
pub(crate) fn worked(
    prescription: OpticalPrescription,
    limits: ThicknessLimits,
    slot: usize,
) -> Option<TraceLimits>
    requires { (prescription.surface_count ≤ 16) × (slot < 4) }
    ensures { result ≡ worked_as prescription limits slot }
{
    let zero = exact(0.0);
    let mut heights = [zero; 16];
    let mut slopes = [zero; 16];
    let mut track = zero;
    let mut ray = start_of(prescription.entrance_pupil_diameter_mm);
    let mut arrived = ends_finite(ray.y);
    for k in 0..prescription.surface_count {
        let t = limits.thicknesses[k];
        let radius = prescription.surfaces[k].radius_mm;
        let next = passed(ray, t, radius, prescription.indices[k * 4 + slot]);
        heights[k] = ray.y;
        ray = next.ray;
        slopes[k] = ray.u;
        track = sum(track, t);
        if !(arrived & next.refracted & ends_finite(track)) {
            return None;
        }
        arrived = next.transferred;
    }
    Some(TraceLimits {
        track,
        heights,
        slopes,
    })
}
