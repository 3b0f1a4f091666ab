// The sag of a surface, and the edge between two: each a number, or none where the conic does not reach so far out, or there is no second surface.
ghost use Rattle.std.specs.Prelude.{◌≡◌};
ghost use Rattle.optics.specs.Curvature.{curvature};
ghost use Rattle.optics.specs.Laid.{laid_surface};
ghost use Rattle.edges.specs.Edges.{sag_of, edge_from, edge_between, edge_of};

use optics::{FlatSurfaces, OpticalSurface};

// The sag at radius r of a conic k with curvature c. Every product from the left: another order rounds otherwise.
#[tactic(auto, unfolding(crate::specs::Edges::sag_of))]
fn sag_of(c: f64, r: f64, k: f64) -> Option<f64>
    ensures { result ≡ sag_of c r k }
{
    let t = 1.0 - (1.0 + k) * (c * c * r * r);
    if t < 0.0 || t.is_nan() {
        return None;
    }
    Some(c * r * r / (1.0 + roots::sqrt(t)))
}

fn surface_sag(surface: OpticalSurface, r: f64) -> Option<f64>
    ensures { result ≡ sag_of (curvature surface.radius_mm) r surface.conic_constant }
{
    sag_of(
        optics::curvature_of(surface.radius_mm),
        r,
        surface.conic_constant,
    )
}

fn edge_from(thickness: f64, first: Option<f64>, second: Option<f64>) -> Option<f64>
    ensures { result ≡ edge_from thickness first second }
{
    Some(thickness + second? - first?)
}

fn edge_between(surface: OpticalSurface, successor: OpticalSurface) -> Option<f64>
    ensures { result ≡ edge_between surface successor }
{
    let r = floats::min(surface.semi_diameter_mm, successor.semi_diameter_mm);
    let first = surface_sag(surface, r);
    let second = surface_sag(successor, r);
    edge_from(surface.thickness_mm, first, second)
}

// The edge behind surface i, any number: i + 1 is formed only where i is a surface's.
#[tactic(auto, unfolding(crate::specs::Edges::edge_of))]
pub fn edge_of(surfaces: &FlatSurfaces, i: usize) -> Option<f64>
    ensures { result ≡ edge_of (laid_surface surfaces.now) surfaces.now.count i }
{
    if i >= surfaces.count || i + 1 >= surfaces.count {
        return None;
    }
    let surface = optics::surface_at(surfaces.flat, i);
    let successor = optics::surface_at(surfaces.flat, i + 1);
    edge_between(surface, successor)
}
