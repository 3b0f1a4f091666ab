// The paraxial trace of the marginal ray in one wavelength slot, over surfaces laid flat.
ghost use Rattle.std.specs.Prelude.{◌≡◌, ◌++◌, ℕ, ◌<◌, ◌≤◌, length, drop};
ghost use Rattle.lists.specs.Tab.{tab};
ghost use Rattle.optics.specs.Laid.{lens_surface, lens_index};
ghost use Rattle.optics.specs.Curvature.{curvature};
ghost use Rattle.optics.specs.Trace.{start, ray_behind, onward, ray_at};

use crate::lens::LaidLens;
use crate::types::ArrivingRay;

// What stands in for `ConicSurface::from_radius`.
#[tactic(auto, using(floats::specs::Constants::infinite), unfolding(crate::specs::Curvature::curvature))]
pub fn curvature_of(radius: f64) -> f64
    ensures { result ≡ curvature radius }
{
    let size = floats::abs(radius);
    if size == 1.0 / 0.0 || size < 1e-15 {
        return 0.0;
    }
    1.0 / radius
}

// The ray in front of the first surface.
pub(crate) fn start_of(pupil: f64) -> ArrivingRay
    ensures { result ≡ start pupil }
{
    ArrivingRay {
        y: pupil * 0.5,
        u: 0.0,
        n: 1.0,
    }
}

// Refraction at a surface with `index` behind it, then transfer to the next.
pub(crate) fn ray_behind(
    ray: ArrivingRay,
    curvature: f64,
    thickness: f64,
    index: f64,
) -> ArrivingRay
    ensures { result ≡ ray_behind curvature thickness index ray }
{
    let power = (index - ray.n) * curvature;
    let u = (ray.n * ray.u - ray.y * power) / index;
    ArrivingRay {
        y: ray.y + thickness * u,
        u,
        n: index,
    }
}

impl LaidLens<'_> {
    // The ray from surface k to the next, in one slot.
    fn next_ray(&self, ray: ArrivingRay, slot: usize, k: usize) -> ArrivingRay
        requires { (slot < 4) × (k < self.now.surfaces.count) }
        ensures { result ≡ onward (lens_surface self.now k) (lens_index self.now slot k) ray }
    {
        let flat = self.surfaces.flat;
        ray_behind(
            ray,
            curvature_of(flat[4 * k]),
            flat[4 * k + 2],
            self.indices[k * 4 + slot],
        )
    }

    // Heights and slopes at the surfaces, as two slices; what stands past them stays.
    pub fn trace_heights(&self, slot: usize, heights: &mut [f64], slopes: &mut [f64])
        requires { (slot < 4) × (self.now.surfaces.count ≤ length heights.old) × (self.now.surfaces.count ≤ length slopes.old) }
        ensures heights_after { heights.new ≡ tab (λ (k : ℕ). (ray_at (lens_surface self.now) (lens_index self.now slot) self.now.pupil k).y)
            self.now.surfaces.count ++ drop self.now.surfaces.count heights.old }
        ensures slopes_after { slopes.new ≡ tab (λ (k : ℕ). (ray_at (lens_surface self.now) (lens_index self.now slot) self.now.pupil k).u)
            self.now.surfaces.count ++ drop self.now.surfaces.count slopes.old }
    {
        let mut ray = start_of(self.pupil);
        for k in 0..self.surfaces.count {
            heights[k] = ray.y;
            ray = self.next_ray(ray, slot, k);
            slopes[k] = ray.u;
        }
    }
}
