// Whole numbers: the least value of an entry that is damage, with all that are greater.
ghost use Rattle.std.specs.Prelude.{◌≤◌};

use held::{HeldRow, LentJob};
use runs::{methods, phases};

#[derive(Clone, Copy)]
pub(crate) enum Limit {
    Is(u64),
    // As many as the job has.
    Surfaces,
    Slots,
    // As many variables as are enabled.
    Enabled,
    // What the run's kind sets.
    Phase,
    Turns,
    Iteration,
    Trial,
    Cycle,
    Step,
}

impl Limit {
    pub(crate) fn least(self, row: &HeldRow) -> u64 {
        let kind = row.head.kind();
        let job = row.job.lent();
        match self {
            Limit::Is(least) => least,
            Limit::Surfaces => job.surface_count() as u64,
            Limit::Slots => job.slot_count() as u64,
            Limit::Enabled => enabled(job),
            Limit::Phase => match kind {
                methods::ANNEALING => one_more(phases::WALK),
                _ => one_more(phases::FINISHED),
            },
            Limit::Turns => turns(job, kind),
            Limit::Iteration => match kind {
                methods::ANNEALING => 26,
                _ => one_more(job.max_iterations()),
            },
            Limit::Trial => match kind {
                methods::MULTI_START => one_more(job.num_trials()),
                _ => 1,
            },
            Limit::Cycle => match kind {
                methods::ANNEALING => job.max_cooling_cycles().max(1),
                _ => 1,
            },
            Limit::Step => match kind {
                methods::ANNEALING => job.steps_per_temperature().max(1),
                _ => 1,
            },
        }
    }
}

fn one_more(x: u64) -> u64 {
    x.wrapping_add(1)
}

// How many of the variables that there are are enabled.
fn enabled(job: LentJob) -> u64
    ensures { result ≤ 8 }
{
    let count = job.variable_count().min(8);
    (0..count).filter(|i| job.variable_at(*i).enabled).count() as u64
}

// The job's bound on turns (01): of a damped run, multi-start, annealing.
fn turns(job: LentJob, kind: u64) -> u64 {
    let a_step = enabled(job).wrapping_mul(2).wrapping_add(10);
    let damped = one_more(job.max_iterations().wrapping_mul(a_step));
    match kind {
        methods::ANNEALING => {
            let steps = job
                .max_cooling_cycles()
                .wrapping_mul(job.steps_per_temperature());
            steps.wrapping_add(a_step.wrapping_mul(25)).wrapping_add(2)
        }
        methods::MULTI_START => one_more(job.num_trials()).wrapping_mul(damped),
        _ => damped,
    }
}

// Five values that are damage, from the least up, of which the fifth is given.
pub(crate) fn values(least: u64, fifth: u64) -> [u64; 5] {
    [
        least,
        one_more(least),
        u64::MAX,
        0x8000_0000_0000_0000,
        fifth,
    ]
}
