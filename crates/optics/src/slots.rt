// The paraxial trace in all four wavelength slots at once: their rays do not wait for each other.
ghost use Rattle.std.specs.Prelude.{◌≡◌, ℕ, ◌<◌, ◌≤◌, get_or};
ghost use Rattle.lists.specs.Tab.{tab};
ghost use Rattle.optics.specs.Types.{no_arriving};
ghost use Rattle.optics.specs.Laid.{lens_surface, lens_index};
ghost use Rattle.optics.specs.Trace.{arriving, onward};
ghost use Rattle.optics.specs.Properties.{last_rays, rays_between};

use crate::lens::LaidLens;
use crate::trace::{curvature_of, ray_behind, start_of};
use crate::types::{ArrivingRay, LastRays, ParaxialRay};
use std::array;

// The records of two surfaces, out of a ray as it arrives at each and behind the second.
fn rays_between(first: ArrivingRay, second: ArrivingRay, third: ArrivingRay) -> LastRays
    ensures { result ≡ rays_between first second third }
{
    LastRays {
        before: ParaxialRay {
            y: first.y,
            u: second.u,
        },
        last: ParaxialRay {
            y: second.y,
            u: third.u,
        },
    }
}

impl LaidLens<'_> {
    // The rays from surface k to the next.
    fn next_rays(&self, rays: [ArrivingRay; 4], k: usize) -> [ArrivingRay; 4]
        requires { k < self.now.surfaces.count }
        ensures { result ≡ tab (λ (w : ℕ). onward (lens_surface self.now k) (lens_index self.now w k) (get_or rays w no_arriving)) 4 }
    {
        let flat = self.surfaces.flat;
        let curvature = curvature_of(flat[4 * k]);
        let thickness = flat[4 * k + 2];
        let indices = self.indices;
        array::from_fn(|w| ray_behind(rays[w], curvature, thickness, indices[k * 4 + w]))
    }

    // The rays as they arrive at surface `to`.
    fn arriving_rays(&self, to: usize) -> [ArrivingRay; 4]
        requires { to ≤ self.now.surfaces.count }
        ensures { result ≡ tab (λ (w : ℕ). arriving (lens_surface self.now) (lens_index self.now w) self.now.pupil to) 4 }
    {
        let mut rays = [start_of(self.pupil); 4];
        for k in 0..to {
            // under a name: no proof is generated for a call's result that is laid in a local that is lent
            let next = self.next_rays(rays, k);
            rays = next;
        }
        rays
    }

    // The rays at the last two surfaces.
    pub(crate) fn last_rays(&self) -> [LastRays; 4]
        requires { 2 ≤ self.now.surfaces.count }
        ensures { result ≡ tab (λ (w : ℕ). last_rays (lens_surface self.now) (lens_index self.now w) self.now.pupil self.now.surfaces.count) 4 }
    {
        let before = self.surfaces.count - 2;
        let first = self.arriving_rays(before);
        let second = self.next_rays(first, before);
        let third = self.next_rays(second, before + 1);
        array::from_fn(|w| rays_between(first[w], second[w], third[w]))
    }
}
