// Whether a step or a cycle of annealing's walk follows.
ghost use Rattle.std.specs.Prelude.{◌≡◌, suc, ltb};
ghost use Rattle.runs.specs.AnnealingRow.{is_cycle};
ghost use Rattle.runs.specs.AnnealingRun.{Annealer};

use jobs::SimulatedAnnealingConfig;

// Whether n + 1 is below the limit.
pub(crate) fn has_next(n: u64, limit: u64) -> bool
    ensures { result ≡ ltb (suc n) limit }
{
    n < limit && 1 < limit - n
}

// Whether there is a first cycle with a step in it.
// global.rs: `for cycle in 0..`, `for _step in 0..`
pub(crate) fn is_first_cycle(config: SimulatedAnnealingConfig) -> bool
    ensures { (a : Annealer) → a.config ≡ config → result ≡ is_cycle a 0 }
{
    0 < config.max_cooling_cycles && 0 < config.steps_per_temperature
}

// Whether there is a cycle after cycle c with a step in it.
pub(crate) fn is_next_cycle(config: SimulatedAnnealingConfig, c: u64) -> bool
    ensures { (a : Annealer) → a.config ≡ config → result ≡ is_cycle a (suc c) }
{
    has_next(c, config.max_cooling_cycles) && 0 < config.steps_per_temperature
}
