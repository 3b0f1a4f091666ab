// A job as it is kept: whatever stands past the counts is zero.
ghost use Rattle.std.specs.Prelude.{◌≡◌, length, get_or};
ghost use Rattle.lists.specs.Kept.{kept, below};
ghost use Rattle.jobs.specs.Kept.{zero_variable, zero_operand, kept_variables, kept_operands, kept_job};

use crate::types::Job;
use merit::{MeritFunction, MeritOperand, OperandType};
use variables::{Follower, VariableDef, VariableSet, VariableType};

fn zero_variable() -> VariableDef
    ensures { result ≡ zero_variable }
{
    VariableDef {
        var_type: VariableType::Curvature(0),
        min_value: 0.0,
        max_value: 0.0,
        step_size: 0.0,
        enabled: false,
        follower: Follower::None,
    }
}

fn zero_operand() -> MeritOperand
    ensures { result ≡ zero_operand }
{
    MeritOperand {
        operand_type: OperandType::EffectiveFocalLength(0),
        target: 0.0,
        weight: 0.0,
    }
}

// The entries from a count on become zero.
fn clear<T: Copy>(entries: &mut [T], count: usize, zero: T)
    ensures { (past : T) → entries.new ≡ kept (below count) (λ i. get_or entries.old i past) zero (length entries.old) }
{
    for i in count..entries.len() {
        entries[i] = zero;
    }
}

fn kept_variables(v: VariableSet) -> VariableSet
    ensures { result ≡ kept_variables v }
{
    let mut kept = v;
    clear(&mut kept.variables, v.variable_count, zero_variable());
    kept
}

fn kept_operands(f: MeritFunction) -> MeritFunction
    ensures { result ≡ kept_operands f }
{
    let mut kept = f;
    clear(&mut kept.operands, f.operand_count, zero_operand());
    kept
}

pub fn kept_job(job: Job) -> Job
    ensures { result ≡ kept_job job }
{
    Job {
        prescription: optics::kept_prescription(job.prescription),
        variables: kept_variables(job.variables),
        merit_function: kept_operands(job.merit_function),
        method: job.method,
    }
}
