// A job written as the numbers that a row holds, from the front.
ghost use Rattle.std.specs.Prelude.{◌≡◌, ◌++◌, ℕ, ◌<◌, get_or, take};
ghost use Rattle.std.specs.Float.{nan};
ghost use Rattle.std.proofs.lemmas.List.Edits.{sets};
ghost use Rattle.lists.specs.Tab.{tab};
ghost use Rattle.optics.specs.Flat.{laid_flat};
ghost use Rattle.jobs.specs.Entries.{no_variable_record, no_operand_record};
ghost use Rattle.held.specs.Places.{variable_kind_at, operand_kind_at, min_value_at, limit_at, pupil_at};
ghost use Rattle.held.specs.Written.{in_turn, variable_counts, operand_counts, variable_numbers, operand_numbers, first_counts, pupil_and_settings};
ghost use Rattle.held.specs.Written.{held_counts};
ghost use Rattle.held.specs.Written.{held_numbers};

use held::{HeldJob, places};
use jobs::{JobRecord, OperandRecord, VariableRecord};
use optics::OpticalSurface;

// Five counts and three numbers of variable i.
fn lay_variable(v: VariableRecord, i: usize, job: &mut HeldJob)
    requires { i < 8 }
    ensures { (job.new.counts ≡ sets job.old.counts (variable_kind_at i) (variable_counts v))
        × (job.new.numbers ≡ sets job.old.numbers (min_value_at i) (variable_numbers v)) }
{
    let whole = places::VARIABLE_COUNTS + 5 * i;
    let real = places::VARIABLE_NUMBERS + 3 * i;
    job.counts[whole] = v.kind;
    job.counts[whole + 1] = v.surface_index;
    job.counts[whole + 2] = v.enabled;
    job.counts[whole + 3] = v.follows;
    job.counts[whole + 4] = v.follower;
    job.numbers[real] = v.min_value;
    job.numbers[real + 1] = v.max_value;
    job.numbers[real + 2] = v.step_size;
}

// Two counts and three numbers of operand n.
fn lay_operand(o: OperandRecord, n: usize, job: &mut HeldJob)
    requires { n < 12 }
    ensures { (job.new.counts ≡ sets job.old.counts (operand_kind_at n) (operand_counts o))
        × (job.new.numbers ≡ sets job.old.numbers (limit_at n) (operand_numbers o)) }
{
    let whole = places::OPERAND_COUNTS + 2 * n;
    let real = places::OPERAND_NUMBERS + 3 * n;
    job.counts[whole] = o.kind;
    job.counts[whole + 1] = o.at;
    job.numbers[real] = o.limit_mm;
    job.numbers[real + 1] = o.target;
    job.numbers[real + 2] = o.weight;
}

// Behind what stands in front of the variables. Like lay_operands, but each is one line of code: one function for both would be handed both writers' places,
// parts and entries for none by a trait, with laws that the parts lie side by side, and the proofs would stand in its impls.
fn lay_variables(records: [VariableRecord; 8], job: &mut HeldJob)
    ensures { (take (operand_kind_at 0) job.new.counts ≡ take (variable_kind_at 0) job.old.counts ++ in_turn
        (λ (i : ℕ). variable_counts (get_or records i no_variable_record)) 8)
        × (take (limit_at 0) job.new.numbers ≡ take (min_value_at 0) job.old.numbers ++ in_turn
        (λ (i : ℕ). variable_numbers (get_or records i no_variable_record)) 8) }
{
    // For the lengths of its arrays.
    job.lent();
    for (i, record) in records.iter().enumerate() {
        lay_variable(*record, i, job);
    }
}

// Behind what stands in front of the operands; nothing stands behind them.
fn lay_operands(records: [OperandRecord; 12], job: &mut HeldJob)
    ensures { (job.new.counts ≡ take (operand_kind_at 0) job.old.counts ++ in_turn (λ (n : ℕ). operand_counts (get_or records n no_operand_record)) 12)
        × (job.new.numbers ≡ take (limit_at 0) job.old.numbers ++ in_turn (λ (n : ℕ). operand_numbers (get_or records n no_operand_record)) 12) }
{
    // For the lengths of its arrays.
    job.lent();
    for (n, record) in records.iter().enumerate() {
        lay_operand(*record, n, job);
    }
}

fn first_counts(job: JobRecord) -> [u64; 73]
    ensures { take (variable_kind_at 0) result ≡ first_counts job }
{
    let s = job.settings;
    let mut counts = [0; 73];
    counts[places::SURFACE_COUNT] = job.surface_count;
    counts[places::SLOT_COUNT] = job.slot_count;
    counts[places::VARIABLE_COUNT] = job.variable_count;
    counts[places::OPERAND_COUNT] = job.operand_count;
    counts[places::MAX_ITERATIONS] = s.max_iterations;
    counts[places::NUM_TRIALS] = s.num_trials;
    counts[places::STEPS_PER_TEMPERATURE] = s.steps_per_temperature;
    counts[places::MAX_COOLING_CYCLES] = s.max_cooling_cycles;
    counts[places::SEED] = s.seed;
    counts
}

// Surfaces and indices.
fn lens_numbers(surfaces: [OpticalSurface; 16], indices: [f64; 64]) -> [f64; 195]
    ensures { take pupil_at result ≡ laid_flat surfaces 16 ++ tab (λ (k : ℕ). get_or indices k nan) 64 }
{
    let mut numbers = [0.0; 195];
    optics::lay_flat(surfaces, 16, &mut numbers);
    numbers[places::INDICES..places::PUPIL].copy_from_slice(&indices);
    numbers
}

// These, the pupil and the settings.
fn first_numbers(job: JobRecord) -> [f64; 195]
    ensures { take (min_value_at 0) result ≡ (laid_flat job.surfaces 16 ++ tab (λ (k : ℕ). get_or job.indices k nan) 64) ++ pupil_and_settings job }
{
    let s = job.settings;
    let mut numbers = lens_numbers(job.surfaces, job.indices);
    numbers[places::PUPIL] = job.entrance_pupil_diameter_mm;
    numbers[places::INITIAL_DAMPING] = s.initial_damping;
    numbers[places::RELATIVE_MERIT_TOLERANCE] = s.relative_merit_tolerance;
    numbers[places::GRADIENT_TOLERANCE] = s.gradient_tolerance;
    numbers[places::RELATIVE_STEP] = s.finite_difference_relative_step;
    numbers[places::INITIAL_TEMPERATURE] = s.initial_temperature;
    numbers[places::COOLING_RATE] = s.cooling_rate;
    numbers
}

// The counts and numbers of a job.
pub(crate) fn held_job(asked: JobRecord) -> HeldJob
    ensures { (result.counts ≡ held_counts asked) × (result.numbers ≡ held_numbers asked) }
{
    let counts = first_counts(asked);
    let numbers = first_numbers(asked);
    let mut job = HeldJob { counts, numbers };
    lay_variables(asked.variables, &mut job);
    lay_operands(asked.operands, &mut job);
    job
}
