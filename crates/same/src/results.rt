// Results.
ghost use Rattle.std.specs.Prelude.{◌≡◌};
ghost use Rattle.optics.specs.Types.{no_surface};
ghost use Rattle.alike.specs.Same.{same_surface, same_surfaces, same_merits, same_result};
ghost use Rattle.alike.proofs.Itself.{surface};

use crate::arrays::{SameBits, are_same};
use optics::OpticalSurface;
use runs::OptimizationResult;

impl SameBits for OpticalSurface {
    ghost alike = { same_surface };

    ghost none = { no_surface };

    fn is_same(&self, other: &OpticalSurface) -> bool {
        self.radius_mm.is_same(&other.radius_mm)
            && self.conic_constant.is_same(&other.conic_constant)
            && self.thickness_mm.is_same(&other.thickness_mm)
            && self.semi_diameter_mm.is_same(&other.semi_diameter_mm)
    }

    ghost itself = { surface };
}

fn same_surfaces(a: &[OpticalSurface; 16], b: &[OpticalSurface; 16]) -> bool
    ensures { result ≡ same_surfaces a.now b.now }
{
    are_same(a, b)
}

fn same_merits(a: &OptimizationResult, b: &OptimizationResult) -> bool
    ensures { result ≡ same_merits a.now b.now }
{
    a.initial_merit.is_same(&b.initial_merit)
        && a.final_merit.is_same(&b.final_merit)
        && a.iterations == b.iterations
        && a.converged == b.converged
}

pub fn same_results(a: &OptimizationResult, b: &OptimizationResult) -> bool
    ensures { result ≡ same_result a.now b.now }
{
    same_merits(a, b)
        && same_surfaces(&a.surfaces, &b.surfaces)
        && are_same(&a.values, &b.values)
        && are_same(&a.residuals, &b.residuals)
}
