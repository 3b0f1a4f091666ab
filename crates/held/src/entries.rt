// The job of a held row, entry by entry.
ghost use Rattle.std.specs.Prelude.{◌≡◌, List, ◌<◌, ◌≤◌, Float, length};
ghost use Rattle.variables.specs.Active.{variable_at};
ghost use Rattle.merit.specs.OperandTable.{operand_at};
ghost use Rattle.jobs.specs.Entries.{variable_known, operand_known};
ghost use Rattle.jobs.specs.Records.{dls_config, annealing_config};
ghost use Rattle.held.specs.JobFrom.{surface_count_from, slot_count_from, variable_count_from, operand_count_from, num_trials_from, max_iterations_from};
ghost use Rattle.held.specs.JobFrom.{steps_per_temperature_from, max_cooling_cycles_from, pupil_from, indices_from, settings_from, variable_record_from};
ghost use Rattle.held.specs.JobFrom.{operand_record_from, variables_from, operands_from};

use crate::places;
use crate::types::{HeldJob, LentJob};
use jobs::{DlsConfig, SimulatedAnnealingConfig};
use merit::MeritOperand;
use variables::VariableDef;

impl HeldJob {
    // Both arrays, as they lie there and as long as their types say.
    pub fn lent(&self) -> LentJob<'_>
        ensures counts { result.counts.now ≡ self.now.counts }
        ensures numbers { result.numbers.now ≡ self.now.numbers }
        ensures long { (length self.now.counts ≡ 73) × (length self.now.numbers ≡ 195) }
    {
        LentJob::over(&self.counts, &self.numbers)
    }
}

impl<'a> LentJob<'a> {
    // Any two arrays, as long as a row's or longer.
    fn over(counts: &'a [u64; 73], numbers: &'a [f64]) -> LentJob<'a>
        requires { 195 ≤ length numbers.now }
        ensures counts { result.counts.now ≡ counts.now }
        ensures numbers { result.numbers.now ≡ numbers.now }
    {
        LentJob { counts, numbers }
    }

    pub fn surface_count(self) -> usize
        ensures { result ≡ surface_count_from self.entry.counts.now }
    {
        self.counts[places::SURFACE_COUNT] as usize
    }

    pub fn slot_count(self) -> usize
        ensures { result ≡ slot_count_from self.entry.counts.now }
    {
        self.counts[places::SLOT_COUNT] as usize
    }

    pub fn variable_count(self) -> usize
        ensures { result ≡ variable_count_from self.entry.counts.now }
    {
        self.counts[places::VARIABLE_COUNT] as usize
    }

    pub fn operand_count(self) -> usize
        ensures { result ≡ operand_count_from self.entry.counts.now }
    {
        self.counts[places::OPERAND_COUNT] as usize
    }

    pub fn pupil(self) -> f64
        ensures { result ≡ pupil_from self.entry.numbers.now }
    {
        self.numbers[places::PUPIL]
    }

    // The indices of all surfaces and slots, as a prescription has them.
    pub fn indices(self) -> &'a [f64]
        ensures { result.now ≡ indices_from self.entry.numbers.now }
    {
        &self.numbers[places::INDICES..places::PUPIL]
    }

    pub fn variable_at(self, i: usize) -> VariableDef
        requires { i < 8 }
        ensures { result ≡ variable_at (variables_from self.entry.counts.now self.entry.numbers.now) i }
    {
        let whole = places::VARIABLE_COUNTS + 5 * i;
        let real = places::VARIABLE_NUMBERS + 3 * i;
        let kind = jobs::variable_type(self.counts[whole], self.counts[whole + 1] as usize);
        let follower = jobs::follower_of(self.counts[whole + 3], self.counts[whole + 4] as usize);
        VariableDef {
            var_type: kind,
            min_value: self.numbers[real],
            max_value: self.numbers[real + 1],
            step_size: self.numbers[real + 2],
            enabled: self.counts[whole + 2] == 1,
            follower,
        }
    }

    pub fn operand_at(self, n: usize) -> MeritOperand
        requires { n < 12 }
        ensures { result ≡ operand_at (operands_from self.entry.counts.now self.entry.numbers.now) n }
    {
        let whole = places::OPERAND_COUNTS + 2 * n;
        let real = places::OPERAND_NUMBERS + 3 * n;
        let kind = jobs::operand_type(
            self.counts[whole],
            self.counts[whole + 1] as usize,
            self.numbers[real],
        );
        MeritOperand {
            operand_type: kind,
            target: self.numbers[real + 1],
            weight: self.numbers[real + 2],
        }
    }

    // The settings of a damped run, and of each of a multi-start's.
    pub fn dls_config(self) -> DlsConfig
        ensures { result ≡ dls_config (settings_from self.entry.counts.now self.entry.numbers.now) }
    {
        DlsConfig {
            max_iterations: self.counts[places::MAX_ITERATIONS],
            initial_damping: self.numbers[places::INITIAL_DAMPING],
            relative_merit_tolerance: self.numbers[places::RELATIVE_MERIT_TOLERANCE],
            gradient_tolerance: self.numbers[places::GRADIENT_TOLERANCE],
            finite_difference_relative_step: self.numbers[places::RELATIVE_STEP],
        }
    }

    pub fn annealing_config(self) -> SimulatedAnnealingConfig
        ensures { result ≡ annealing_config (settings_from self.entry.counts.now self.entry.numbers.now) }
    {
        SimulatedAnnealingConfig {
            initial_temperature: self.numbers[places::INITIAL_TEMPERATURE],
            cooling_rate: self.numbers[places::COOLING_RATE],
            steps_per_temperature: self.counts[places::STEPS_PER_TEMPERATURE],
            max_cooling_cycles: self.counts[places::MAX_COOLING_CYCLES],
            seed: self.counts[places::SEED],
        }
    }

    // A multi-start's.
    pub fn num_trials(self) -> u64
        ensures { result ≡ num_trials_from self.entry.counts.now }
    {
        self.counts[places::NUM_TRIALS]
    }

    pub fn max_iterations(self) -> u64
        ensures { result ≡ max_iterations_from self.entry.counts.now }
    {
        self.counts[places::MAX_ITERATIONS]
    }

    pub fn steps_per_temperature(self) -> u64
        ensures { result ≡ steps_per_temperature_from self.entry.counts.now }
    {
        self.counts[places::STEPS_PER_TEMPERATURE]
    }

    pub fn max_cooling_cycles(self) -> u64
        ensures { result ≡ max_cooling_cycles_from self.entry.counts.now }
    {
        self.counts[places::MAX_COOLING_CYCLES]
    }

    // Whether the kind of variable i, its mark and its follower's sign are ones that there are; the same of operand n's kind.
    pub fn variable_known(self, i: usize) -> bool
        requires { i < 8 }
        ensures { (numbers : List Float) → result ≡ variable_known (variable_record_from self.entry.counts.now numbers i) }
    {
        let at = places::VARIABLE_COUNTS + 5 * i;
        self.counts[at] < 4 && self.counts[at + 2] < 2 && self.counts[at + 3] < 3
    }

    pub fn operand_known(self, n: usize) -> bool
        requires { n < 12 }
        ensures { (numbers : List Float) → result ≡ operand_known (operand_record_from self.entry.counts.now numbers n) }
    {
        self.counts[places::OPERAND_COUNTS + 2 * n] < jobs::OPERAND_KINDS
    }
}
