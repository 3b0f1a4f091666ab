// One variable and one operand in numbers alone, and read back.
ghost use Rattle.std.specs.Prelude.{◌≡◌};
ghost use Rattle.jobs.specs.Entries.{variable_kind, variable_type, variable_record, variable_of, operand_kind, slot_or_surface, limit_of, slot_type};
ghost use Rattle.jobs.specs.Entries.{surface_type, operand_type, operand_record, operand_of, variable_known};
ghost use Rattle.jobs.specs.Entries.{operand_known, follows_of, follower_surface, follower_of, zero_variable_record, zero_operand_record};

use crate::types::{OperandRecord, VariableRecord};
use merit::{MeritOperand, OperandType};
use variables::{Follower, VariableDef, VariableType};

// What stands past the counts.
impl Default for VariableRecord {
    ghost is_default = { λ r. r ≡ zero_variable_record };

    fn default() -> VariableRecord {
        VariableRecord {
            kind: 0,
            surface_index: 0,
            enabled: 0,
            min_value: 0.0,
            max_value: 0.0,
            step_size: 0.0,
            follows: 0,
            follower: 0,
        }
    }
}

impl Default for OperandRecord {
    ghost is_default = { λ r. r ≡ zero_operand_record };

    fn default() -> OperandRecord {
        OperandRecord {
            kind: 0,
            at: 0,
            limit_mm: 0.0,
            target: 0.0,
            weight: 0.0,
        }
    }
}

fn variable_kind(t: VariableType) -> u64
    ensures { result ≡ variable_kind t }
{
    match t {
        VariableType::Curvature(_) => 0,
        VariableType::Thickness(_) => 1,
        VariableType::Conic(_) => 2,
        VariableType::SemiDiameter(_) => 3,
    }
}

#[tactic(auto, unfolding(crate::specs::Entries::variable_type))]
pub fn variable_type(kind: u64, i: usize) -> VariableType
    ensures { result ≡ variable_type kind i }
{
    match kind {
        0 => VariableType::Curvature(i),
        1 => VariableType::Thickness(i),
        2 => VariableType::Conic(i),
        _ => VariableType::SemiDiameter(i),
    }
}

fn follows_of(f: Follower) -> u64
    ensures { result ≡ follows_of f }
{
    match f {
        Follower::None => 0,
        Follower::Plus(_) => 1,
        Follower::Minus(_) => 2,
    }
}

fn follower_surface(f: Follower) -> usize
    ensures { result ≡ follower_surface f }
{
    match f {
        Follower::None => 0,
        Follower::Plus(i) | Follower::Minus(i) => i,
    }
}

#[tactic(auto, unfolding(crate::specs::Entries::follower_of))]
pub fn follower_of(follows: u64, i: usize) -> Follower
    ensures { result ≡ follower_of follows i }
{
    match follows {
        0 => Follower::None,
        1 => Follower::Plus(i),
        _ => Follower::Minus(i),
    }
}

impl From<VariableDef> for VariableRecord {
    ghost from_gives = { λ d r. r ≡ variable_record d };

    fn from(d: VariableDef) -> VariableRecord {
        VariableRecord {
            kind: variable_kind(d.var_type),
            surface_index: variables::surface_index(d.var_type) as u64,
            enabled: u64::from(d.enabled),
            min_value: d.min_value,
            max_value: d.max_value,
            step_size: d.step_size,
            follows: follows_of(d.follower),
            follower: follower_surface(d.follower) as u64,
        }
    }
}

impl From<VariableRecord> for VariableDef {
    ghost from_gives = { λ r d. d ≡ variable_of r };

    fn from(v: VariableRecord) -> VariableDef {
        VariableDef {
            var_type: variable_type(v.kind, v.surface_index as usize),
            min_value: v.min_value,
            max_value: v.max_value,
            step_size: v.step_size,
            enabled: v.enabled == 1,
            follower: follower_of(v.follows, v.follower as usize),
        }
    }
}

// An operand's kind is a number below this.
pub const OPERAND_KINDS: u64 = 8;

fn operand_kind(t: OperandType) -> u64
    ensures { result ≡ operand_kind t }
{
    match t {
        OperandType::EffectiveFocalLength(_) => 0,
        OperandType::WorkingFNumber(_) => 1,
        OperandType::TotalTrack => 2,
        OperandType::BackFocalLength(_) => 3,
        OperandType::ParaxialMagnification(_) => 4,
        OperandType::MinCenterThickness {
            surface_index: _,
            min_thickness_mm: _,
        } => 5,
        OperandType::MaxCenterThickness {
            surface_index: _,
            max_thickness_mm: _,
        } => 6,
        OperandType::MinEdgeThickness {
            surface_index: _,
            min_edge_mm: _,
        } => 7,
    }
}

fn slot_or_surface(t: OperandType) -> usize
    ensures { result ≡ slot_or_surface t }
{
    match t {
        OperandType::EffectiveFocalLength(w) => w,
        OperandType::WorkingFNumber(w) => w,
        OperandType::TotalTrack => 0,
        OperandType::BackFocalLength(w) => w,
        OperandType::ParaxialMagnification(w) => w,
        OperandType::MinCenterThickness {
            surface_index,
            min_thickness_mm: _,
        } => surface_index,
        OperandType::MaxCenterThickness {
            surface_index,
            max_thickness_mm: _,
        } => surface_index,
        OperandType::MinEdgeThickness {
            surface_index,
            min_edge_mm: _,
        } => surface_index,
    }
}

fn limit_of(t: OperandType) -> f64
    ensures { result ≡ limit_of t }
{
    match t {
        OperandType::EffectiveFocalLength(_) => 0.0,
        OperandType::WorkingFNumber(_) => 0.0,
        OperandType::TotalTrack => 0.0,
        OperandType::BackFocalLength(_) => 0.0,
        OperandType::ParaxialMagnification(_) => 0.0,
        OperandType::MinCenterThickness {
            surface_index: _,
            min_thickness_mm,
        } => min_thickness_mm,
        OperandType::MaxCenterThickness {
            surface_index: _,
            max_thickness_mm,
        } => max_thickness_mm,
        OperandType::MinEdgeThickness {
            surface_index: _,
            min_edge_mm,
        } => min_edge_mm,
    }
}

#[tactic(auto, unfolding(crate::specs::Entries::slot_type))]
fn slot_type(kind: u64, w: usize) -> OperandType
    ensures { result ≡ slot_type kind w }
{
    match kind {
        0 => OperandType::EffectiveFocalLength(w),
        1 => OperandType::WorkingFNumber(w),
        2 => OperandType::TotalTrack,
        3 => OperandType::BackFocalLength(w),
        _ => OperandType::ParaxialMagnification(w),
    }
}

#[tactic(auto, unfolding(crate::specs::Entries::surface_type))]
fn surface_type(kind: u64, i: usize, limit: f64) -> OperandType
    ensures { result ≡ surface_type kind i limit }
{
    match kind {
        5 => OperandType::MinCenterThickness {
            surface_index: i,
            min_thickness_mm: limit,
        },
        6 => OperandType::MaxCenterThickness {
            surface_index: i,
            max_thickness_mm: limit,
        },
        _ => OperandType::MinEdgeThickness {
            surface_index: i,
            min_edge_mm: limit,
        },
    }
}

#[tactic(auto, unfolding(crate::specs::Entries::operand_type))]
pub fn operand_type(kind: u64, at: usize, limit: f64) -> OperandType
    ensures { result ≡ operand_type kind at limit }
{
    if kind < 5 {
        return slot_type(kind, at);
    }
    surface_type(kind, at, limit)
}

impl From<MeritOperand> for OperandRecord {
    ghost from_gives = { λ o r. r ≡ operand_record o };

    fn from(o: MeritOperand) -> OperandRecord {
        OperandRecord {
            kind: operand_kind(o.operand_type),
            at: slot_or_surface(o.operand_type) as u64,
            limit_mm: limit_of(o.operand_type),
            target: o.target,
            weight: o.weight,
        }
    }
}

impl From<OperandRecord> for MeritOperand {
    ghost from_gives = { λ r o. o ≡ operand_of r };

    fn from(o: OperandRecord) -> MeritOperand {
        MeritOperand {
            operand_type: operand_type(o.kind, o.at as usize, o.limit_mm),
            target: o.target,
            weight: o.weight,
        }
    }
}

// An enabled mark other than 0 and 1 is damage, as is a number that is no kind or no sign.
pub fn variable_known(v: VariableRecord) -> bool
    ensures { result ≡ variable_known v }
{
    v.kind < 4 && v.enabled < 2 && v.follows < 3
}

pub fn operand_known(o: OperandRecord) -> bool
    ensures { result ≡ operand_known o }
{
    o.kind < OPERAND_KINDS
}
