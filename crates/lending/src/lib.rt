// The two calls that stand alone, lent what is the caller's own: by value, with what stood there before.
// Stands on `meritcalls`; called by `replay`.
#![tactic(auto)]

ghost use Rattle.std.specs.Prelude.{◌≡◌, min};
ghost use Rattle.refusals.specs.Numbers.{answered, numbered};
ghost use Rattle.merit.specs.Calls.{evaluate_number, evaluated_as, trace_answer};
ghost use Rattle.lending.specs.Over.{rays_over};

mod types;

use merit::{MeritEvaluation, MeritFunction};
use optics::{OpticalPrescription, ParaxialRay};
pub use types::{Evaluated, TracedRow};

// `old` is what a refused evaluation leaves.
pub fn evaluate_over(
    prescription: OpticalPrescription,
    function: MeritFunction,
    old: MeritEvaluation,
) -> Evaluated
    ensures evaluation { result.evaluation ≡ evaluated_as old prescription function }
    ensures answer { answered result.answer ≡ evaluate_number prescription function }
{
    let mut evaluation = old;
    let answer = meritcalls::evaluate(prescription, function, &mut evaluation);
    Evaluated { evaluation, answer }
}

// A trace into the first `length` records of `old`, or into all of them.
pub fn trace_over(
    prescription: OpticalPrescription,
    slot: usize,
    old: [ParaxialRay; 16],
    length: usize,
) -> TracedRow
    ensures rays { result.rays ≡ rays_over prescription slot old length }
    ensures answer { numbered result.answer ≡ trace_answer prescription slot (min length 16) }
{
    let mut rays = old;
    let n = if length < 16 { length } else { 16 };
    let answer = meritcalls::trace(prescription, slot, &mut rays[..n]);
    TracedRow { rays, answer }
}
