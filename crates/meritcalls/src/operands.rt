// The value of an operand, by the tests of `MeritOperand::evaluate`.
ghost use Rattle.std.specs.Prelude.{cond, ◌≡◌, ℕ, ◌<◌, get_or, Some, None};
ghost use Rattle.optics.specs.Laid.{laid_surface};
ghost use Rattle.merit.specs.Operands.{finite_or, is_focal_length, is_magnified, focal_length, f_number, back_focus, magnification, track, shortfall, excess};
ghost use Rattle.merit.specs.Operands.{counted, of_surface, edge_counted, value_of};

use edges::edge_of;
use floats::{abs, is_finite};
use merit::OperandType;
use optics::{FlatSurfaces, ParaxialProperties};

// A number where it is finite, else what counts in its place.
#[tactic(auto, unfolding(merit::specs::Operands::finite_or))]
fn finite_or(other: f64, x: f64) -> f64
    ensures { result ≡ finite_or other x }
{
    if is_finite(x) { x } else { other }
}

#[tactic(auto, unfolding(merit::specs::Operands::is_focal_length))]
fn is_focal_length(x: f64) -> bool
    ensures { result ≡ is_focal_length x }
{
    is_finite(x) && abs(x) > 0.01
}

fn focal_length_or(other: f64, x: f64) -> f64
    ensures { result ≡ cond (is_focal_length x) x other }
{
    if is_focal_length(x) { x } else { other }
}

fn focal_length(slot: Option<ParaxialProperties>) -> f64
    ensures { result ≡ focal_length slot }
{
    match slot {
        None => 10000.0,
        Some(q) => focal_length_or(10000.0, q.efl_mm),
    }
}

fn f_number(slot: Option<ParaxialProperties>) -> f64
    ensures { result ≡ f_number slot }
{
    match slot {
        None => 100.0,
        Some(q) => finite_or(100.0, q.f_number),
    }
}

fn back_focus(slot: Option<ParaxialProperties>) -> f64
    ensures { result ≡ back_focus slot }
{
    match slot {
        None => 10000.0,
        Some(q) => finite_or(10000.0, q.bfl_mm),
    }
}

#[tactic(auto, unfolding(merit::specs::Operands::is_magnified))]
fn is_magnified(q: ParaxialProperties) -> bool
    ensures { result ≡ is_magnified q }
{
    abs(q.bfl_mm) > 1e-12 && abs(q.efl_mm) > 1e-6
}

fn traced_magnification(q: ParaxialProperties) -> f64
    ensures { result ≡ magnification (Some q) }
{
    if is_magnified(q) {
        return q.bfl_mm / q.efl_mm;
    }
    0.0
}

fn magnification_of(slot: Option<ParaxialProperties>) -> f64
    ensures { result ≡ magnification slot }
{
    match slot {
        None => 0.0,
        Some(q) => traced_magnification(q),
    }
}

// The thicknesses of surfaces laid flat, added in rising order.
fn total_track(surfaces: &FlatSurfaces) -> f64
    ensures { result ≡ track (laid_surface surfaces.now) surfaces.now.count }
{
    let mut sum = 0.0;
    for k in 0..surfaces.count {
        sum = sum + surfaces.flat[4 * k + 2];
    }
    sum
}

#[tactic(auto, unfolding(merit::specs::Operands::shortfall))]
fn shortfall_of(thickness: f64, limit: f64) -> f64
    ensures { result ≡ shortfall thickness limit }
{
    if thickness < limit {
        return thickness - limit;
    }
    0.0
}

#[tactic(auto, unfolding(merit::specs::Operands::excess))]
fn excess_of(thickness: f64, limit: f64) -> f64
    ensures { result ≡ excess thickness limit }
{
    if thickness > limit {
        return thickness - limit;
    }
    0.0
}

// A value that is not finite counts 100,000.
fn counted_value(x: f64) -> f64
    ensures { result ≡ counted x }
{
    finite_or(100000.0, x)
}

fn slot_of(slots: [Option<ParaxialProperties>; 4], w: usize) -> Option<ParaxialProperties>
    ensures { result ≡ get_or slots w None }
{
    *slots.get(w)?
}

// The thickness behind surface i, where there is such a surface.
fn thickness_at(surfaces: &FlatSurfaces, i: usize) -> f64
    ensures { i < surfaces.now.count → result ≡ (laid_surface surfaces.now i).thickness_mm }
{
    if i < surfaces.count {
        return surfaces.flat[4 * i + 2];
    }
    0.0
}

// A value that needs surface i: where it is absent, 100,000.
fn of_surface(i: usize, count: usize, x: f64) -> f64
    ensures { result ≡ of_surface i count x }
{
    if i < count {
        return counted_value(x);
    }
    100000.0
}

// What an edge falls short of the least; where it is missing, 100,000, before any limit is looked at.
fn edge_counted(limit: f64, edge: Option<f64>) -> f64
    ensures { result ≡ edge_counted limit edge }
{
    match edge {
        Some(e) => counted_value(shortfall_of(e, limit)),
        None => 100000.0,
    }
}

// An operand's value, given the traces of the slots, on surfaces laid flat.
#[tactic(auto, unfolding(merit::specs::Operands::value_of))]
pub fn value_of(
    kind: OperandType,
    slots: [Option<ParaxialProperties>; 4],
    surfaces: &FlatSurfaces,
    earlier: [f64; 12],
) -> f64
    ensures { result ≡ value_of earlier (λ (w : ℕ). get_or slots w None) (laid_surface surfaces.now) surfaces.now.count kind }
{
    match kind {
        OperandType::EffectiveFocalLength(w) => counted_value(focal_length(slot_of(slots, w))),
        OperandType::WorkingFNumber(w) => counted_value(f_number(slot_of(slots, w))),
        OperandType::TotalTrack => counted_value(total_track(surfaces)),
        OperandType::BackFocalLength(w) => counted_value(back_focus(slot_of(slots, w))),
        OperandType::ParaxialMagnification(w) => counted_value(magnification_of(slot_of(slots, w))),
        OperandType::MinCenterThickness {
            surface_index,
            min_thickness_mm,
        } => {
            let thickness = thickness_at(surfaces, surface_index);
            of_surface(
                surface_index,
                surfaces.count,
                shortfall_of(thickness, min_thickness_mm),
            )
        }
        OperandType::MaxCenterThickness {
            surface_index,
            max_thickness_mm,
        } => {
            let thickness = thickness_at(surfaces, surface_index);
            of_surface(
                surface_index,
                surfaces.count,
                excess_of(thickness, max_thickness_mm),
            )
        }
        OperandType::MinEdgeThickness {
            surface_index,
            min_edge_mm,
        } => edge_counted(min_edge_mm, edge_of(surfaces, surface_index)),
    }
}
