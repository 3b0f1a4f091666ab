// The draws for a trial of multi-start and for a step of annealing: one for each enabled variable of a held job, in order.
ghost use Rattle.std.specs.Prelude.{◌≡◌, Float};
ghost use Rattle.xorshift.specs.Xorshift.{step_times};
ghost use Rattle.variables.specs.declared.types.VariableDef.{VariableDef};
ghost use Rattle.variables.specs.Active.{num_active};
ghost use Rattle.runs.specs.MultiStartRun.{random_params, after_draws};
ghost use Rattle.draws.specs.Parts.{TriedBy, drawn_values, anywhere, nearby};
ghost use Rattle.held.specs.JobOf.{variables_of};

use held::VariedJob;
use variables::VariableDef;

// What was drawn, and the generator after it.
#[derive(Clone, Copy)]
pub struct Drawn {
    pub params: [f64; 8],
    pub generator: u64,
}

// What a unit draw makes of a variable's value.
trait Rule {
    ghost rule: { (unit old : Float) → VariableDef → Float };

    fn value(unit: f64, old: f64, d: VariableDef) -> f64
        ensures { result ≡ rule unit old d };
}

// `rng.uniform(var.min_value, var.max_value)`
struct Anywhere;

impl Rule for Anywhere {
    ghost rule = { anywhere };

    fn value(unit: f64, _old: f64, d: VariableDef) -> f64 {
        xorshift::uniform(unit, d.min_value, d.max_value)
    }
}

// The value moved by up to a twentieth of its range either way, and clamped.
struct Nearby;

impl Rule for Nearby {
    ghost rule = { nearby };

    fn value(unit: f64, old: f64, d: VariableDef) -> f64 {
        let perturb = (unit - 0.5) * 0.1 * (d.max_value - d.min_value);
        floats::clamp(old + perturb, d.min_value, d.max_value)
    }
}

// A draw for each, used by a rule; what stands after them is kept.
#[tactic(auto, unfolding(lists::specs::Tab::tab, xorshift::specs::Xorshift::step_times, variables::specs::Active::enabled_of))]
fn draw_each<R: Rule>(generator: u64, job: VariedJob, start: [f64; 8]) -> Drawn
    ensures { (result.params ≡ drawn_values R.rule (variables_of job.entry.held) start generator)
        × (result.generator ≡ step_times (num_active (variables_of job.entry.held)) generator) }
{
    let count = job.held.variable_count();
    let mut x = start;
    let mut rng = generator;
    let mut q: usize = 0;
    for i in 0..count {
        let d = job.held.variable_at(i);
        if d.enabled {
            let draw = xorshift::drawn(rng);
            rng = draw.state;
            x[q] = R::value(draw.unit, start[q], d);
            q += 1;
        }
    }
    Drawn {
        params: x,
        generator: rng,
    }
}

// For a trial of multi-start: any value within the bounds, and +0.0 after them.
#[tactic(auto, unfolding(lists::specs::Tab::tab, runs::specs::MultiStartRun::random_params, runs::specs::MultiStartRun::after_draws))]
pub fn random_params(generator: u64, job: VariedJob) -> Drawn
    ensures { (result.params ≡ random_params (variables_of job.entry.held) generator)
        × (result.generator ≡ after_draws (variables_of job.entry.held) generator) }
{
    draw_each::<Anywhere>(generator, job, [0.0; 8])
}

// For a step of annealing: each param moved, and what stands after them kept.
#[tactic(auto, unfolding(runs::specs::AnnealingRun::trial_params))]
pub fn trial_params(generator: u64, job: VariedJob, params: [f64; 8]) -> Drawn
    ensures { TriedBy (variables_of job.entry.held) params generator result.params
        × (result.generator ≡ step_times (num_active (variables_of job.entry.held)) generator) }
{
    draw_each::<Nearby>(generator, job, params)
}
