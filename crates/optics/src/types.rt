// What a lens is made of. Names and units are those of prescription.rs.

// One surface, in mm; an infinite radius is a flat one.
#[repr(C)]
#[derive(Clone, Copy)]
pub struct OpticalSurface {
    pub radius_mm: f64,
    pub conic_constant: f64,
    pub thickness_mm: f64,
    pub semi_diameter_mm: f64,
}

// Surfaces in order, with one refractive index behind each surface for each wavelength slot: that of
// surface i in slot w stands at `indices[i * 4 + w]`, whatever the slot count. Arrays and counts, and no Vec: the calls have fixed memory alone.
#[derive(Clone, Copy)]
pub struct OpticalPrescription {
    pub surfaces: [OpticalSurface; 16],
    pub indices: [f64; 64],
    pub surface_count: usize,
    pub slot_count: usize,
    pub entrance_pupil_diameter_mm: f64,
}

// The height of a paraxial ray at a surface and its slope behind it.
#[repr(C)]
#[derive(Clone, Copy)]
pub struct ParaxialRay {
    pub y: f64,
    pub u: f64,
}

// Focal length, back focus and f-number of one slot; the Rust's pupil positions are left out.
#[derive(Clone, Copy)]
pub struct ParaxialProperties {
    pub efl_mm: f64,
    pub bfl_mm: f64,
    pub f_number: f64,
}

// A paraxial ray as it arrives at a surface: its height there, and its slope and the index in front.
#[derive(Clone, Copy)]
pub struct ArrivingRay {
    pub y: f64,
    pub u: f64,
    pub n: f64,
}

// The paraxial rays of the last surface but one and of the last.
#[derive(Clone, Copy)]
pub(crate) struct LastRays {
    pub before: ParaxialRay,
    pub last: ParaxialRay,
}
