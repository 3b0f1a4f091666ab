// What the kind of a row says of its phases, its counters and its turns. A number that is no kind counts as annealing, as in `jobs`.
// A kind and a phase stay numbers: a row may hold any bytes, and whether they are a kind and a phase is the question here.
ghost use Rattle.std.specs.Prelude.{◌≡◌, List, ◌≤◌, Float};
ghost use Rattle.jobs.specs.declared.types.SettingsRecord.{SettingsRecord};
ghost use Rattle.jobs.specs.Records.{method};
ghost use Rattle.runs.specs.Rows.{finished_by, bound_by};
ghost use Rattle.runs.specs.Damage.{last_phase, uses_current, uses_best, iteration_limit, trial_limit, cycle_limit, step_limit};
ghost use Rattle.kinds.specs.Phases.{StateInPhase};
ghost use Rattle.kinds.specs.Limits.{CountsWithin};
ghost use Rattle.held.specs.JobFrom.{settings_from};

use held::LentJob;
use runs::{methods, phases};

#[tactic(auto, unfolding(jobs::specs::Records::method))]
pub(crate) fn last_phase(kind: u64) -> u64
    ensures { (s : SettingsRecord) → result ≡ last_phase (method kind s) }
{
    match kind {
        methods::DAMPED | methods::MULTI_START => phases::FINISHED,
        _ => phases::WALK,
    }
}

#[tactic(auto, unfolding(jobs::specs::Records::method, runs::specs::Rows::finished_by))]
pub fn is_over(kind: u64, phase: u64) -> bool
    ensures { (c : SettingsRecord) → StateInPhase phase (λ s. result ≡ finished_by (method kind c) s) }
{
    match kind {
        methods::DAMPED | methods::MULTI_START => kinds::damped_over(phase),
        _ => kinds::annealing_over(phase),
    }
}

// Whether the current surfaces are in use: in every phase but multi-start finished.
#[tactic(auto, unfolding(jobs::specs::Records::method, runs::specs::Rows::finished_by))]
pub(crate) fn uses_current(kind: u64, phase: u64) -> bool
    ensures { (c : SettingsRecord) → StateInPhase phase (λ s. result ≡ uses_current (method kind c) s) }
{
    match kind {
        methods::DAMPED => true,
        methods::MULTI_START => !kinds::damped_over(phase),
        _ => true,
    }
}

// Whether the best surfaces are in use: in multi-start from trial 1 on and when finished, and in annealing's walk.
#[tactic(auto, unfolding(jobs::specs::Records::method, runs::specs::Rows::finished_by))]
pub(crate) fn uses_best(kind: u64, phase: u64, trial: u64) -> bool
    ensures { (c : SettingsRecord) → StateInPhase phase (λ s. s.trial ≡ trial → result ≡ uses_best (method kind c) s) }
{
    match kind {
        methods::DAMPED => false,
        methods::MULTI_START => 0 < trial || kinds::damped_over(phase),
        _ => phase == phases::WALK,
    }
}

// How far each counter may go. A kind that lacks the counter has limit 0 for it.
#[derive(Clone, Copy)]
pub(crate) struct CounterLimits {
    pub iteration: u64,
    pub trial: u64,
    pub cycle: u64,
    pub step: u64,
}

#[tactic(auto, unfolding(jobs::specs::Records::method))]
pub(crate) fn counter_limits(kind: u64, job: LentJob) -> CounterLimits
    ensures iteration { (numbers : List Float) → result.iteration ≡ iteration_limit (method kind (settings_from job.entry.counts.now numbers)) }
    ensures trial { (numbers : List Float) → result.trial ≡ trial_limit (method kind (settings_from job.entry.counts.now numbers)) }
    ensures cycle { (numbers : List Float) → result.cycle ≡ cycle_limit (method kind (settings_from job.entry.counts.now numbers)) }
    ensures step { (numbers : List Float) → result.step ≡ step_limit (method kind (settings_from job.entry.counts.now numbers)) }
{
    match kind {
        methods::DAMPED => CounterLimits {
            iteration: job.max_iterations(),
            trial: 0,
            cycle: 0,
            step: 0,
        },
        methods::MULTI_START => CounterLimits {
            iteration: job.max_iterations(),
            trial: job.num_trials(),
            cycle: 0,
            step: 0,
        },
        _ => CounterLimits {
            iteration: 25,
            trial: 0,
            cycle: job.max_cooling_cycles(),
            step: job.steps_per_temperature(),
        },
    }
}

// The most merits that the job's run works out, with p variables enabled.
#[tactic(auto, unfolding(jobs::specs::Records::method, runs::specs::Rows::bound_by))]
pub(crate) fn bound(kind: u64, job: LentJob, p: u64) -> u64
    requires { ((numbers : List Float) → CountsWithin (method kind (settings_from job.counts.now numbers))) × (p ≤ 8) }
    ensures { (numbers : List Float) → result ≡ bound_by (method kind (settings_from job.entry.counts.now numbers)) p }
{
    match kind {
        methods::DAMPED => kinds::damped_bound(job.max_iterations(), p),
        methods::MULTI_START => kinds::multi_start_bound(job.num_trials(), job.max_iterations(), p),
        _ => kinds::annealing_bound(job.max_cooling_cycles(), job.steps_per_temperature(), p),
    }
}
