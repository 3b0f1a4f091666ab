// Operands and what evaluating them gives. Names are those of operands.rs and merit.rs.

// What an operand measures, each kind with its own numbers: a wavelength slot, none, or a surface and a limit in mm.
#[derive(Clone, Copy)]
pub enum OperandType {
    EffectiveFocalLength(usize),
    WorkingFNumber(usize),
    TotalTrack,
    BackFocalLength(usize),
    ParaxialMagnification(usize),
    MinCenterThickness {
        surface_index: usize,
        min_thickness_mm: f64,
    },
    MaxCenterThickness {
        surface_index: usize,
        max_thickness_mm: f64,
    },
    MinEdgeThickness {
        surface_index: usize,
        min_edge_mm: f64,
    },
}

#[derive(Clone, Copy)]
pub struct MeritOperand {
    pub operand_type: OperandType,
    pub target: f64,
    pub weight: f64,
}

#[derive(Clone, Copy)]
pub struct MeritFunction {
    pub operands: [MeritOperand; 12],
    pub operand_count: usize,
}

// Each operand's value and weighted residual, zero past the count, and the merit.
#[repr(C)]
#[derive(Clone, Copy)]
pub struct MeritEvaluation {
    pub values: [f64; 12],
    pub residuals: [f64; 12],
    pub total_merit: f64,
}

// A weight and its root.
#[derive(Clone, Copy)]
pub struct WeightRoot {
    pub weight: f64,
    pub root: f64,
}

// What a trace that is not refused answers. Fewer than two surfaces are a failed trace. No bool and no Option: `Ok(true)` or `Ok(None)` would not say what
// was done, and a failed trace hands out nothing else.
#[derive(Clone, Copy)]
pub enum Traced {
    Done,
    Failed,
}
