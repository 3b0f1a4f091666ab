// The lens: surfaces, prescriptions, the paraxial trace and what follows from it (out of prescription.rs).
// Stands on `floats`; called by all that sees a lens, from `variables` and `merit` up.
#![tactic(auto)]

mod checks;
mod flat;
mod kept;
mod lens;
mod properties;
mod rays;
mod slots;
mod trace;
mod types;

pub use checks::{
    above_zero_up_to, indices_taken, is_within, lens_taken, surface_taken, surfaces_taken,
};
pub use flat::{lay_flat, surface_at};
pub use kept::{kept_prescription, lens_counts_taken, zero_surface};
pub use lens::{FlatSurfaces, LaidLens};
pub use rays::fill_rays;
pub use trace::curvature_of;
pub use types::{OpticalPrescription, OpticalSurface, ParaxialProperties, ParaxialRay};
