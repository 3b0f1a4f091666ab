// Where a row has an entry in use.
use held::{HeldRow, LentJob};
use merit::OperandType;
use runs::{methods, phases};
use variables::VariableType;

#[derive(Clone, Copy)]
pub(crate) enum Uses {
    // Once in each row; in one that is not at its end; in damped runs and multi-start; in multi-start; in annealing.
    Once,
    OnWay,
    Damped,
    MultiStart,
    Annealing,
    // At each variable; at a semi-diameter's; at a thickness's and a semi-diameter's.
    Variables,
    SemiDiameters,
    MinusVariables,
    // At each operand; at one that has a slot; at one that has a limit.
    Operands,
    SlotOperands,
    LimitedOperands,
    // At each surface and slot that there are.
    Indices,
    // At each surface of the job.
    Surfaces,
    // "the current surfaces in every phase but multi-start finished"
    Current,
    // "the best surfaces in multi-start from trial 1 on and when finished, and in annealing's walk"
    Best,
}

impl Uses {
    // Whether the row has the entry at place i, and it bears on the job there.
    pub(crate) fn holds(self, row: &HeldRow, i: usize) -> bool {
        let job = row.job.lent();
        let kind = row.head.kind();
        let phase = row.head.phase();
        match self {
            Uses::Once => i == 0,
            Uses::OnWay => i == 0 && phase != phases::FINISHED,
            Uses::Damped => i == 0 && kind != methods::ANNEALING,
            Uses::MultiStart => i == 0 && kind == methods::MULTI_START,
            Uses::Annealing => i == 0 && kind == methods::ANNEALING,
            Uses::Variables => i < job.variable_count(),
            Uses::SemiDiameters => i < job.variable_count() && is_semi_diameter(variable(job, i)),
            Uses::MinusVariables => i < job.variable_count() && is_length(variable(job, i)),
            Uses::Operands => i < job.operand_count(),
            Uses::SlotOperands => i < job.operand_count() && has_slot(operand(job, i)),
            Uses::LimitedOperands => i < job.operand_count() && has_limit(operand(job, i)),
            Uses::Indices => i / 4 < job.surface_count() && i % 4 < job.slot_count(),
            Uses::Surfaces => i < job.surface_count(),
            Uses::Current => {
                i < job.surface_count() && (kind, phase) != (methods::MULTI_START, phases::FINISHED)
            }
            Uses::Best => i < job.surface_count() && has_best(kind, phase, row.head.trial()),
        }
    }
}

fn has_best(kind: u64, phase: u64, trial: u64) -> bool {
    match (kind, phase) {
        (methods::MULTI_START, phases::FINISHED) | (methods::ANNEALING, phases::WALK) => true,
        (methods::MULTI_START, _) => trial > 0,
        _ => false,
    }
}

// What variable i varies, of which there are eight at most.
fn variable(job: LentJob, i: usize) -> VariableType {
    job.variable_at(i % 8).var_type
}

fn is_semi_diameter(varied: VariableType) -> bool {
    matches!(varied, VariableType::SemiDiameter(_))
}

// A thickness too.
fn is_length(varied: VariableType) -> bool {
    matches!(
        varied,
        VariableType::Thickness(_) | VariableType::SemiDiameter(_)
    )
}

// The kind of operand i, of which there are twelve at most.
fn operand(job: LentJob, i: usize) -> OperandType {
    job.operand_at(i % 12).operand_type
}

fn has_slot(operand: OperandType) -> bool {
    !has_limit(operand) && !matches!(operand, OperandType::TotalTrack)
}

fn has_limit(operand: OperandType) -> bool {
    matches!(
        operand,
        OperandType::MinCenterThickness { .. }
            | OperandType::MaxCenterThickness { .. }
            | OperandType::MinEdgeThickness { .. }
    )
}
