// The states that a damped run stands in between two merits, one function a phase. What a phase does not use is zero.
// The functions are alike but for the fields and arrays that a phase uses, which is all that they say: one for several would be handed them.
ghost use Rattle.std.specs.Prelude.{◌≡◌};
ghost use Rattle.runs.specs.DampedRow.{current_of, holding, at_first, at_plus, at_minus, at_candidate, ended};
ghost use Rattle.dls.specs.DampedSteps.{with_damping};
ghost use Rattle.held.specs.JobFrom.{standing};
ghost use Rattle.held.specs.RowFrom.{damped_from};

use held::{Head, HeldRun};
use runs::phases;

// Outside the loops: the phase, and surfaces, params and a candidate that stand already.
pub fn holding(phase: u64, run: &mut HeldRun) -> Head
    ensures { damped_from result run.new ≡ holding phase (standing run.old.surfaces) run.old.params run.old.candidate }
{
    run.jacobian = [0.0; 96];
    run.values = [0.0; 12];
    run.residuals = [0.0; 12];
    run.plus_residuals = [0.0; 12];
    Head {
        phase,
        ..Head::default()
    }
}

// Just before the first merit, of surfaces that stand already.
pub fn at_first(run: &mut HeldRun) -> Head
    ensures { damped_from result run.new ≡ at_first (standing run.old.surfaces) }
{
    run.params = [0.0; 8];
    run.candidate = [0.0; 8];
    holding(phases::FIRST, run)
}

// Just before the merit that moves parameter `column` up.
pub(crate) fn at_plus(h: Head, column: u64, run: &mut HeldRun) -> Head
    ensures { damped_from result run.new ≡ at_plus (current_of (damped_from h run.old)) run.old.jacobian column }
{
    run.plus_residuals = [0.0; 12];
    run.candidate = [0.0; 8];
    Head {
        phase: phases::PLUS,
        column,
        attempt: 0,
        converged: 0,
        ..h
    }
}

// Just before the merit that moves it down.
pub(crate) fn at_minus(h: Head, found: [f64; 12], run: &mut HeldRun) -> Head
    ensures { damped_from result run.new ≡ at_minus (current_of (damped_from h run.old)) run.old.jacobian h.column found }
{
    run.plus_residuals = found;
    run.candidate = [0.0; 8];
    Head {
        phase: phases::MINUS,
        attempt: 0,
        converged: 0,
        ..h
    }
}

// Just before the candidate's merit.
pub(crate) fn at_candidate(
    h: Head,
    damping: f64,
    attempt: u64,
    found: [f64; 8],
    run: &mut HeldRun,
) -> Head
    ensures { damped_from result run.new
        ≡ at_candidate (with_damping damping (current_of (damped_from h run.old))) run.old.jacobian attempt found }
{
    run.plus_residuals = [0.0; 12];
    run.candidate = found;
    Head {
        damping,
        phase: phases::CANDIDATE,
        column: 0,
        attempt,
        converged: 0,
        ..h
    }
}

// At the end.
pub(crate) fn ended(h: Head, converged: bool, run: &mut HeldRun) -> Head
    ensures { damped_from result run.new ≡ ended converged (current_of (damped_from h run.old)) }
{
    run.jacobian = [0.0; 96];
    run.plus_residuals = [0.0; 12];
    run.params = [0.0; 8];
    run.candidate = [0.0; 8];
    Head {
        damping: 0.0,
        phase: phases::FINISHED,
        column: 0,
        attempt: 0,
        converged: u64::from(converged),
        ..h
    }
}
