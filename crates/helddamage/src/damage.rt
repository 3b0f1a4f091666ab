// Whether a held row is damaged.
ghost use Rattle.std.specs.Prelude.{◌≡◌, List, ◌≤◌, Float, length};
ghost use Rattle.jobs.specs.declared.types.SettingsRecord.{SettingsRecord};
ghost use Rattle.jobs.specs.Records.{method};
ghost use Rattle.runs.specs.Damage.{taken_if, surfaces_sound, counters_sound, state_sound, damaged};
ghost use Rattle.variables.specs.Active.{num_active};
ghost use Rattle.held.specs.JobFrom.{standing, surface_count_from};
ghost use Rattle.held.specs.JobOf.{variables_of, settings_of, job_of};
ghost use Rattle.held.specs.RowFrom.{kind_from, row_from};
ghost use Rattle.helddamage.specs.Others.{Others, held_with, state_with};

use crate::{checks, limits};
use held::{LentJob, places};

fn taken_if(used: bool, flat: &[f64], count: usize) -> bool
    requires { (count ≤ 16) × (64 ≤ length flat.now) }
    ensures { result ≡ taken_if used (standing flat.now) count }
{
    !used || checks::surfaces_taken(flat, count)
}

// The surfaces in use.
#[tactic(auto, unfolding(runs::specs::Damage::surfaces_sound))]
fn surfaces_sound(words: &[u64; 13], count: usize, surfaces: &[f64], best: &[f64]) -> bool
    requires { (count ≤ 16) × (64 ≤ length surfaces.now) × (64 ≤ length best.now) }
    ensures { (c : SettingsRecord) (o : Others)
        → result ≡ surfaces_sound (method (kind_from words.now) c) count (state_with words.now surfaces.now best.now o) }
{
    let kind = words[places::KIND];
    let phase = words[places::PHASE];
    let trial = words[places::TRIAL];
    taken_if(limits::uses_current(kind, phase), surfaces, count)
        && taken_if(limits::uses_best(kind, phase, trial), best, count)
}

// Column, attempt and iteration below their limits, and trial, cycle and step.
#[tactic(auto, unfolding(runs::specs::Damage::counters_sound))]
fn counters_sound(words: &[u64; 13], job: LentJob, p: usize) -> bool
    ensures { (surfaces best : List Float) (o : Others)
        → result ≡ counters_sound (method (kind_from words.now) (settings_of job.entry)) p (state_with words.now surfaces best o) }
{
    let most = limits::counter_limits(words[places::KIND], job);
    words[places::COLUMN] < p as u64
        && words[places::ATTEMPT] <= 10
        && words[places::ITERATION] <= most.iteration
        && words[places::TRIAL] <= most.trial
        && words[places::CYCLE] < kinds::at_least_one(most.cycle)
        && words[places::STEP] < kinds::at_least_one(most.step)
}

// Phase, surfaces and counters; p variables are enabled.
#[tactic(auto, unfolding(runs::specs::Damage::state_sound))]
fn state_sound(words: &[u64; 13], job: LentJob, p: usize, surfaces: &[f64], best: &[f64]) -> bool
    requires { (surface_count_from job.counts.now ≤ 16) × (64 ≤ length surfaces.now) × (64 ≤ length best.now) }
    ensures { (o : Others) → p ≡ num_active (variables_of job.entry)
        → result ≡ state_sound (method (kind_from words.now) (settings_of job.entry)) (job_of job.entry (kind_from words.now))
        (state_with words.now surfaces.now best.now o) }
{
    words[places::PHASE] <= limits::last_phase(words[places::KIND])
        && surfaces_sound(words, job.surface_count(), surfaces, best)
        && counters_sound(words, job, p)
}

// Whether the row is damaged, whatever the arrays are that it is not lent.
#[tactic(auto, unfolding(runs::specs::Damage::damaged, runs::specs::Damage::job_sound, runs::specs::Damage::turns_sound, runs::specs::Rows::is_finished))]
pub fn is_damaged(words: &[u64; 13], job: LentJob, surfaces: &[f64], best_surfaces: &[f64]) -> bool
    requires { (64 ≤ length surfaces.now) × (64 ≤ length best_surfaces.now) }
    ensures { (o : Others)
        → result ≡ damaged (row_from (held_with words.now job.entry.counts.now job.entry.numbers.now surfaces.now best_surfaces.now o)) }
{
    let kind = words[places::KIND];
    if !kinds::is_kind(kind) || !checks::counts_taken(job) {
        return true;
    }
    let p = job.num_active();
    if !checks::job_taken(kind, job, p) || !state_sound(words, job, p, surfaces, best_surfaces) {
        return true;
    }
    !limits::is_over(kind, words[places::PHASE])
        && words[places::TURNS] >= limits::bound(kind, job, p as u64)
}
