// Surfaces laid flat: four numbers a surface, from the start of a lent slice.
ghost use Rattle.std.specs.Prelude.{◌≡◌, ◌++◌, ◌+◌, ◌*◌, ◌≤◌, length, drop};
ghost use Rattle.optics.specs.Flat.{laid_flat};
ghost use Rattle.optics.specs.Types.{flat_surface};

use crate::types::OpticalSurface;

// Surface i.
pub fn surface_at(flat: &[f64], i: usize) -> OpticalSurface
    requires { 4 * i + 4 ≤ length flat.now }
    ensures { result ≡ flat_surface flat.now i }
{
    OpticalSurface {
        radius_mm: flat[4 * i],
        conic_constant: flat[4 * i + 1],
        thickness_mm: flat[4 * i + 2],
        semi_diameter_mm: flat[4 * i + 3],
    }
}

// What stands past them stays.
pub fn lay_flat(surfaces: [OpticalSurface; 16], count: usize, flat: &mut [f64])
    requires { (count ≤ 16) × (4 * count ≤ length flat.old) }
    ensures { flat.new ≡ laid_flat surfaces count ++ drop (4 * count) flat.old }
{
    for k in 0..count {
        let s = surfaces[k];
        flat[4 * k] = s.radius_mm;
        flat[4 * k + 1] = s.conic_constant;
        flat[4 * k + 2] = s.thickness_mm;
        flat[4 * k + 3] = s.semi_diameter_mm;
    }
}
