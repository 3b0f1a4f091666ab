// The numbers of a row that are no arrays: read one by one or together, and written back.
ghost use Rattle.std.specs.Prelude.{◌≡◌};
ghost use Rattle.held.specs.RowFrom.{kind_from, turns_from, phase_from, iteration_from, column_from, attempt_from, trial_from, cycle_from, step_from};
ghost use Rattle.held.specs.RowFrom.{head_from};
ghost use Rattle.held.specs.Written.{held_head};

use crate::places;
use crate::types::{BestHead, Head, HeldHead, RowHead};

impl HeldHead {
    pub fn kind(&self) -> u64
        ensures { result ≡ kind_from self.now.words }
    {
        self.words[places::KIND]
    }

    pub fn turns(&self) -> u64
        ensures { result ≡ turns_from self.now.words }
    {
        self.words[places::TURNS]
    }

    pub fn phase(&self) -> u64
        ensures { result ≡ phase_from self.now.words }
    {
        self.words[places::PHASE]
    }

    pub fn iteration(&self) -> u64
        ensures { result ≡ iteration_from self.now.words }
    {
        self.words[places::ITERATION]
    }

    pub fn column(&self) -> u64
        ensures { result ≡ column_from self.now.words }
    {
        self.words[places::COLUMN]
    }

    pub fn attempt(&self) -> u64
        ensures { result ≡ attempt_from self.now.words }
    {
        self.words[places::ATTEMPT]
    }

    pub fn trial(&self) -> u64
        ensures { result ≡ trial_from self.now.words }
    {
        self.words[places::TRIAL]
    }

    pub fn cycle(&self) -> u64
        ensures { result ≡ cycle_from self.now.words }
    {
        self.words[places::CYCLE]
    }

    pub fn step(&self) -> u64
        ensures { result ≡ step_from self.now.words }
    {
        self.words[places::STEP]
    }

    // All but the kind and the turns.
    pub fn numbers(&self) -> RowHead
        ensures { result ≡ head_from self.now.words self.now.scalars }
    {
        let words = &self.words;
        let scalars = &self.scalars;
        RowHead {
            damped: Head {
                total_merit: scalars[places::TOTAL_MERIT],
                initial_merit: scalars[places::INITIAL_MERIT],
                damping: scalars[places::DAMPING],
                phase: words[places::PHASE],
                iteration: words[places::ITERATION],
                column: words[places::COLUMN],
                attempt: words[places::ATTEMPT],
                converged: words[places::CONVERGED],
            },
            best: BestHead {
                initial_merit: scalars[places::BEST_INITIAL_MERIT],
                final_merit: scalars[places::BEST_FINAL_MERIT],
                iterations: words[places::BEST_ITERATIONS],
                converged: words[places::BEST_CONVERGED],
            },
            generator: words[places::GENERATOR],
            trial: words[places::TRIAL],
            cycle: words[places::CYCLE],
            step: words[places::STEP],
            temperature: scalars[places::TEMPERATURE],
            current_merit: scalars[places::CURRENT_MERIT],
        }
    }

    // Words and scalars in their order.
    pub fn of(kind: u64, turns: u64, head: RowHead) -> HeldHead
        ensures { result ≡ held_head kind turns head }
    {
        let d = head.damped;
        let b = head.best;
        HeldHead {
            words: [
                kind,
                turns,
                d.phase,
                d.iteration,
                d.column,
                d.attempt,
                d.converged,
                head.generator,
                head.trial,
                head.cycle,
                head.step,
                b.iterations,
                b.converged,
            ],
            scalars: [
                d.initial_merit,
                d.damping,
                head.temperature,
                head.current_merit,
                d.total_merit,
                b.initial_merit,
                b.final_merit,
            ],
        }
    }
}
