// A lens as the calls reach it: its surfaces laid flat in a lent slice, four numbers each, and the indices behind them.
ghost use Rattle.std.specs.Prelude.{◌≡◌, ◌*◌, ◌≤◌, length};

use crate::types::OpticalPrescription;

// The first `count` surfaces of a slice; what stands past them is not looked at.
#[derive(Clone, Copy)]
pub struct FlatSurfaces<'a> {
    pub flat: &'a [f64],
    pub count: usize,
    pub ghost laid: { 4 * count ≤ length flat.now },
}

// With the index behind surface i in slot w at `indices[i * 4 + w]`, and the diameter of the entrance pupil.
#[derive(Clone, Copy)]
pub struct LaidLens<'a> {
    pub surfaces: FlatSurfaces<'a>,
    pub indices: &'a [f64],
    pub pupil: f64,
    pub ghost indexed: { 4 * surfaces.count ≤ length indices.now },
}

impl OpticalPrescription {
    // Over its surfaces as they are laid flat there.
    pub fn laid<'a>(&'a self, flat: &'a [f64]) -> LaidLens<'a>
        requires { (self.now.surface_count ≤ 16) × (4 * self.now.surface_count ≤ length flat.now) }
        ensures flat { result.surfaces.flat.now ≡ flat.now }
        ensures count { result.surfaces.count ≡ self.now.surface_count }
        ensures indices { result.indices.now ≡ self.now.indices }
        ensures pupil { result.pupil ≡ self.now.entrance_pupil_diameter_mm }
    {
        LaidLens {
            surfaces: FlatSurfaces {
                flat,
                count: self.surface_count,
            },
            indices: &self.indices,
            pupil: self.entrance_pupil_diameter_mm,
        }
    }
}
