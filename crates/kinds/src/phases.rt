// Kinds, and the phases that are the end. Both stay numbers: a row may hold any, and which are kinds and ends is told here.
ghost use Rattle.std.specs.Prelude.{◌≡◌};
ghost use Rattle.runs.specs.DampedRow as Damped;
ghost use Rattle.runs.specs.AnnealingRow as Annealing;
ghost use Rattle.runs.specs.Damage.{is_kind};
ghost use Rattle.kinds.specs.Phases.{InPhase, StateInPhase};

use runs::{methods, phases};

pub fn is_kind(kind: u64) -> bool
    ensures { result ≡ is_kind kind }
{
    matches!(
        kind,
        methods::DAMPED | methods::MULTI_START | methods::ANNEALING
    )
}

// Whether a damped part in this phase is at its end.
pub fn damped_over(phase: u64) -> bool
    ensures { InPhase phase (λ d. result ≡ Damped.is_finished d) }
{
    phases::FINISHED <= phase
}

// The same of annealing, where two are the walk's.
pub fn annealing_over(phase: u64) -> bool
    ensures { StateInPhase phase (λ s. result ≡ Annealing.is_finished s) }
{
    match phase {
        // Two arms: the proof takes each phase by its own.
        phases::WALK_FIRST => false,
        phases::WALK => false,
        _ => damped_over(phase),
    }
}
