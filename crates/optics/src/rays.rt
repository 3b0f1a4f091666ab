// The lent row of height-and-slope records.
ghost use Rattle.std.specs.Prelude.{◌≡◌, ◌≤◌, length};
ghost use Rattle.optics.specs.Trace.{rays_of};

use crate::types::ParaxialRay;

// Every record of the row, out of heights and slopes.
pub fn fill_rays(rays: &mut [ParaxialRay], heights: &[f64], slopes: &[f64])
    requires { (length rays.old ≤ length heights.now) × (length rays.old ≤ length slopes.now) }
    ensures { rays.new ≡ rays_of heights.now slopes.now (length rays.old) }
{
    for (i, ray) in rays.iter_mut().enumerate() {
        *ray = ParaxialRay {
            y: heights[i],
            u: slopes[i],
        };
    }
}
