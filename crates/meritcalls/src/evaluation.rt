// The evaluation of a lens laid flat: every operand's value and residual, and the merit.
ghost use Rattle.std.specs.Prelude.{◌≡◌, ◌≤◌};
ghost use Rattle.floats.specs.Sqrt.{sqrt_of};
ghost use Rattle.optics.specs.Laid.{lens_surface, lens_index};
ghost use Rattle.merit.specs.Evaluation.{difference, counted_total, evaluation_of};
ghost use Rattle.merit.specs.Steps.{RootKnown, SlotsKnown};

use crate::operands::value_of;
use merit::{MeritEvaluation, MeritFunction, MeritOperand, WeightRoot};
use optics::LaidLens;

// A value's distance from the operand's target, at most a million either way.
#[tactic(auto, unfolding(merit::specs::Evaluation::difference))]
pub fn difference_of(o: MeritOperand, value: f64) -> f64
    ensures { result ≡ difference o value }
{
    floats::clamp(value - o.target, -1e6, 1e6)
}

// A total that is not finite counts as the greatest that is.
#[tactic(auto, unfolding(merit::specs::Evaluation::counted_total, merit::specs::Evaluation::overflow_merit))]
pub fn counted_total(total: f64) -> f64
    ensures { result ≡ counted_total total }
{
    if floats::is_finite(total) {
        return total;
    }
    1.7976931348623157e308
}

// The root of a weight, worked out only where it is not that of the weight before. The two zeros are equal, and their roots are not.
pub fn root_of(known: WeightRoot, weight: f64) -> WeightRoot
    requires { RootKnown known }
    ensures { (result.root ≡ sqrt_of weight) × RootKnown result }
{
    if weight > 0.0 && weight == known.weight {
        return known;
    }
    WeightRoot {
        weight,
        root: roots::sqrt(weight),
    }
}

// The evaluation of a laid lens under the operands of a job.
pub(crate) fn evaluate_flat(lens: &LaidLens, function: MeritFunction) -> MeritEvaluation
    requires { (function.operand_count ≤ 12) × SlotsKnown function }
    ensures { result ≡ evaluation_of (lens_surface lens.now) (lens_index lens.now) lens.now.pupil lens.now.surfaces.count function }
{
    let slots = lens.paraxial_slots();
    let mut values = [0.0; 12];
    let mut residuals = [0.0; 12];
    let mut total = 0.0;
    let mut known = WeightRoot {
        weight: 1.0,
        root: 1.0,
    };
    for n in 0..function.operand_count {
        let o = function.operands[n];
        let value = value_of(o.operand_type, slots, &lens.surfaces, values);
        let d = difference_of(o, value);
        values[n] = value;
        known = root_of(known, o.weight);
        residuals[n] = known.root * d;
        total = total + o.weight * d * d;
    }
    MeritEvaluation {
        values,
        residuals,
        total_merit: counted_total(total),
    }
}
