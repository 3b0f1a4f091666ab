// Focal length, back focus and f-number of a wavelength slot, out of the rays at the last two surfaces.
ghost use Rattle.std.specs.Prelude.{◌≡◌, ℕ, ◌<◌, ◌≤◌};
ghost use Rattle.lists.specs.Tab.{tab};
ghost use Rattle.optics.specs.Laid.{lens_surface, lens_index, lens_paraxial};
ghost use Rattle.optics.specs.Properties.{negligible, ends_in_detector, focus_of, properties_from, properties_behind};

use crate::lens::LaidLens;
use crate::trace::curvature_of;
use crate::types::{LastRays, ParaxialProperties, ParaxialRay};
use std::array;

fn is_negligible(x: f64) -> bool
    ensures { result ≡ negligible x }
{
    floats::abs(x) < 1e-12
}

// How far behind its surface a ray meets the axis.
#[tactic(auto, using(floats::specs::Constants::infinite))]
fn focus_of(ray: ParaxialRay) -> f64
    ensures { result ≡ focus_of ray }
{
    if is_negligible(ray.u) {
        return 1.0 / 0.0;
    }
    -ray.y / ray.u
}

// `height` is that at the first surface; the back focus is measured along `back`.
#[tactic(auto, using(floats::specs::Constants::infinite))]
fn properties_from(
    height: f64,
    pupil: f64,
    last: ParaxialRay,
    back: ParaxialRay,
) -> ParaxialProperties
    ensures { result ≡ properties_from height pupil last back }
{
    if is_negligible(last.u) {
        return ParaxialProperties {
            efl_mm: 1.0 / 0.0,
            bfl_mm: 1.0 / 0.0,
            f_number: 1.0 / 0.0,
        };
    }
    let efl = -height / last.u;
    ParaxialProperties {
        efl_mm: efl,
        bfl_mm: focus_of(back),
        f_number: floats::abs(efl) / pupil,
    }
}

impl LaidLens<'_> {
    // Whether the last surface is a detector.
    fn ends_in_detector(&self, slot: usize) -> bool
        requires { (slot < 4) × (2 ≤ self.now.surfaces.count) }
        ensures { result ≡ ends_in_detector (lens_surface self.now) (lens_index self.now slot) self.now.surfaces.count }
    {
        let flat = self.surfaces.flat;
        let before = self.surfaces.count - 2;
        let last = self.surfaces.count - 1;
        is_negligible(self.indices[before * 4 + slot] - self.indices[last * 4 + slot])
            && is_negligible(curvature_of(flat[4 * last]))
            && flat[4 * last + 2] == 0.0
    }

    // The properties of one slot, out of its rays at the last two surfaces.
    fn slot_properties(&self, rays: LastRays, slot: usize) -> ParaxialProperties
        requires { (slot < 4) × (2 ≤ self.now.surfaces.count) }
        ensures { result ≡ properties_behind rays (lens_surface self.now) (lens_index self.now slot) self.now.pupil self.now.surfaces.count }
    {
        let back = if self.ends_in_detector(slot) {
            rays.before
        } else {
            rays.last
        };
        properties_from(self.pupil * 0.5, self.pupil, rays.last, back)
    }

    // The properties in every slot. Fewer than two surfaces are a failed trace, which has none.
    pub fn paraxial_slots(&self) -> [Option<ParaxialProperties>; 4]
        ensures { result ≡ tab (lens_paraxial self.now) 4 }
    {
        if self.surfaces.count < 2 {
            return [None; 4];
        }
        let last = self.last_rays();
        array::from_fn(|w| Some(self.slot_properties(last[w], w)))
    }

    // The same in one slot.
    pub fn paraxial(&self, slot: usize) -> Option<ParaxialProperties>
        requires { slot < 4 }
        ensures { result ≡ lens_paraxial self.now slot }
    {
        self.paraxial_slots()[slot]
    }
}
