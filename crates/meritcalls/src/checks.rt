// What refusal 5 lets through.
ghost use Rattle.std.specs.Prelude.{◌≡◌, ◌≤◌};
ghost use Rattle.merit.specs.Check.{kind_taken, weight_taken, operand_taken, operands_taken};

use merit::{MeritFunction, MeritOperand, OperandType};
use optics::is_within;

// A thickness or edge operand whose surface, or its successor, is absent is taken.
#[tactic(auto, unfolding(merit::specs::Check::kind_taken))]
fn kind_taken(slots: usize, kind: OperandType) -> bool
    ensures { result ≡ kind_taken slots kind }
{
    match kind {
        OperandType::EffectiveFocalLength(w) => w < slots,
        OperandType::WorkingFNumber(w) => w < slots,
        OperandType::TotalTrack => true,
        OperandType::BackFocalLength(w) => w < slots,
        OperandType::ParaxialMagnification(w) => w < slots,
        OperandType::MinCenterThickness {
            surface_index: _,
            min_thickness_mm,
        } => is_within(min_thickness_mm),
        OperandType::MaxCenterThickness {
            surface_index: _,
            max_thickness_mm,
        } => is_within(max_thickness_mm),
        OperandType::MinEdgeThickness {
            surface_index: _,
            min_edge_mm,
        } => is_within(min_edge_mm),
    }
}

#[tactic(auto, unfolding(merit::specs::Check::weight_taken))]
fn weight_taken(x: f64) -> bool
    ensures { result ≡ weight_taken x }
{
    floats::is_finite(x) && !(x < 0.0)
}

#[tactic(auto, unfolding(merit::specs::Check::operand_taken))]
pub fn operand_taken(slots: usize, o: MeritOperand) -> bool
    ensures { result ≡ operand_taken slots o }
{
    kind_taken(slots, o.operand_type) && is_within(o.target) && weight_taken(o.weight)
}

// Check 5 on the operands in use.
pub fn operands_taken(slots: usize, function: MeritFunction) -> bool
    requires { function.operand_count ≤ 12 }
    ensures { result ≡ operands_taken slots function }
{
    function
        .operands
        .iter()
        .take(function.operand_count)
        .all(|o| operand_taken(slots, *o))
}
