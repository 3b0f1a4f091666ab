// A prescription as it is kept: whatever stands past the counts is +0.0.
ghost use Rattle.std.specs.Prelude.{◌≡◌, ◌<◌};
ghost use Rattle.optics.specs.Types.{zero_surface};
ghost use Rattle.optics.specs.Kept.{lens_counts_taken, index_used, kept_surfaces, kept_indices, kept_prescription};

use crate::types::{OpticalPrescription, OpticalSurface};

pub fn lens_counts_taken(surfaces: usize, slots: usize) -> bool
    ensures { result ≡ lens_counts_taken surfaces slots }
{
    surfaces <= 16 && 1 <= slots && slots <= 4
}

pub fn zero_surface() -> OpticalSurface
    ensures { result ≡ zero_surface }
{
    OpticalSurface {
        radius_mm: 0.0,
        conic_constant: 0.0,
        thickness_mm: 0.0,
        semi_diameter_mm: 0.0,
    }
}

fn kept_surfaces(surfaces: [OpticalSurface; 16], count: usize) -> [OpticalSurface; 16]
    ensures { result ≡ kept_surfaces count surfaces }
{
    let mut kept = surfaces;
    for i in count..16 {
        kept[i] = zero_surface();
    }
    kept
}

fn index_used(count: usize, slots: usize, k: usize) -> bool
    ensures { result ≡ index_used count slots k }
{
    k / 4 < count && k % 4 < slots
}

fn kept_indices(indices: [f64; 64], count: usize, slots: usize) -> [f64; 64]
    ensures { result ≡ kept_indices count slots indices }
{
    let mut kept = indices;
    for (k, index) in kept.iter_mut().enumerate() {
        if !index_used(count, slots, k) {
            *index = 0.0;
        }
    }
    kept
}

pub fn kept_prescription(prescription: OpticalPrescription) -> OpticalPrescription
    ensures { result ≡ kept_prescription prescription }
{
    OpticalPrescription {
        surfaces: kept_surfaces(prescription.surfaces, prescription.surface_count),
        indices: kept_indices(
            prescription.indices,
            prescription.surface_count,
            prescription.slot_count,
        ),
        ..prescription
    }
}
