// What refusal 3 lets through.
ghost use Rattle.std.specs.Prelude.{◌≡◌, ◌*◌, ◌+◌, ◌≤◌, length};
ghost use Rattle.optics.specs.Check.{within, above_zero_up_to, surface_taken, surfaces_taken, row_taken, indices_taken, lens_taken};

use crate::types::{OpticalPrescription, OpticalSurface};

// Finite and not beyond ±1e9: the bounds leave out a NaN and the infinities.
pub fn is_within(x: f64) -> bool
    ensures { result ≡ within x }
{
    -1e9 <= x && x <= 1e9
}

// A NaN is not above 0.
pub fn above_zero_up_to(top: f64, x: f64) -> bool
    ensures { result ≡ above_zero_up_to top x }
{
    0.0 < x && x <= top
}

// Check 3 on one surface.
#[tactic(auto, unfolding(crate::specs::Check::surface_taken))]
pub fn surface_taken(s: OpticalSurface) -> bool
    ensures { result ≡ surface_taken s }
{
    !s.radius_mm.is_nan()
        && floats::is_finite(s.conic_constant)
        && is_within(s.thickness_mm)
        && above_zero_up_to(1e9, s.semi_diameter_mm)
}

// Check 3 on the surfaces in use.
pub fn surfaces_taken(surfaces: &[OpticalSurface], count: usize) -> bool
    requires { count ≤ length surfaces.now }
    ensures { result ≡ surfaces_taken surfaces.now count }
{
    surfaces.iter().take(count).all(|s| surface_taken(*s))
}

// The indices of surface i in the used slots.
fn row_taken(indices: &[f64], i: usize, slots: usize) -> bool
    requires { (slots ≤ 4) × (i * 4 + 4 ≤ length indices.now) }
    ensures { result ≡ row_taken indices.now slots i }
{
    indices[i * 4..i * 4 + slots]
        .iter()
        .all(|index| above_zero_up_to(10.0, *index))
}

pub fn indices_taken(indices: &[f64], slots: usize, count: usize) -> bool
    requires { (slots ≤ 4) × (4 * count ≤ length indices.now) }
    ensures { result ≡ indices_taken indices.now slots count }
{
    (0..count).all(|i| row_taken(indices, i, slots))
}

// Check 3: the pupil, and the surfaces and indices in use. The counts are checked before.
#[tactic(auto, unfolding(crate::specs::Check::lens_taken))]
pub fn lens_taken(prescription: OpticalPrescription) -> bool
    requires { (prescription.surface_count ≤ 16) × (prescription.slot_count ≤ 4) }
    ensures { result ≡ lens_taken prescription }
{
    above_zero_up_to(1e9, prescription.entrance_pupil_diameter_mm)
        && surfaces_taken(&prescription.surfaces, prescription.surface_count)
        && indices_taken(
            &prescription.indices,
            prescription.slot_count,
            prescription.surface_count,
        )
}
