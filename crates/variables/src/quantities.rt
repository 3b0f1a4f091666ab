// One variable and one value: the quantity that it names, read and stored.
ghost use Rattle.std.specs.Prelude.{◌≡◌};
ghost use Rattle.optics.specs.Types.{no_surface};
ghost use Rattle.variables.specs.Kinds.{surface_index, quantity_of, apply_clamp, radius_of, with_value};

use crate::types::VariableType;
use optics::OpticalSurface;

// The number of the variable's surface.
pub fn surface_index(kind: VariableType) -> usize
    ensures { result ≡ surface_index kind }
{
    match kind {
        VariableType::Curvature(i)
        | VariableType::Thickness(i)
        | VariableType::Conic(i)
        | VariableType::SemiDiameter(i) => i,
    }
}

// What the variable names, of its surface.
pub fn quantity(surface: OpticalSurface, kind: VariableType) -> f64
    ensures { result ≡ quantity_of surface kind }
{
    match kind {
        VariableType::Curvature(_) => optics::curvature_of(surface.radius_mm),
        VariableType::Thickness(_) => surface.thickness_mm,
        VariableType::Conic(_) => surface.conic_constant,
        VariableType::SemiDiameter(_) => surface.semi_diameter_mm,
    }
}

// What a read past the last surface counts as.
pub fn no_surface() -> OpticalSurface
    ensures { result ≡ no_surface }
{
    OpticalSurface {
        radius_mm: 0.0 / 0.0,
        conic_constant: 0.0 / 0.0,
        thickness_mm: 0.0 / 0.0,
        semi_diameter_mm: 0.0 / 0.0,
    }
}

// Clamp, with a NaN counting as below the lower bound.
pub fn apply_clamp(x: f64, lo: f64, hi: f64) -> f64
    ensures { result ≡ apply_clamp x lo hi }
{
    if x.is_nan() {
        return lo;
    }
    floats::clamp(x, lo, hi)
}

// The radius that is stored for a curvature.
fn radius_of(curvature: f64) -> f64
    ensures { result ≡ radius_of curvature }
{
    if floats::abs(curvature) < 1e-12 {
        return 1.0 / 0.0;
    }
    1.0 / curvature
}

// The surface with the variable's quantity changed, and no other.
pub fn with_value(surface: OpticalSurface, kind: VariableType, value: f64) -> OpticalSurface
    ensures { result ≡ with_value surface kind value }
{
    match kind {
        VariableType::Curvature(_) => OpticalSurface {
            radius_mm: radius_of(value),
            ..surface
        },
        VariableType::Thickness(_) => OpticalSurface {
            thickness_mm: value,
            ..surface
        },
        VariableType::Conic(_) => OpticalSurface {
            conic_constant: value,
            ..surface
        },
        VariableType::SemiDiameter(_) => OpticalSurface {
            semi_diameter_mm: value,
            ..surface
        },
    }
}
