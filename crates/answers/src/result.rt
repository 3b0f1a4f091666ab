// A run's result, written.
ghost use Rattle.streams.specs.Output.{Puts};
ghost use Rattle.answers.specs.Pieces.{outcome_texts, lens_texts};

use crate::entries::put_all_there;
use crate::pieces::{put_number, put_row};
use runs::OptimizationResult;
use streams::output::Output;

// M first final N iterations converged
pub fn put_outcome(output: &mut Output, res: OptimizationResult)
    ensures { Puts output.old (outcome_texts res) output.new }
{
    let merits = [res.initial_merit, res.final_merit];
    output.put(b" M");
    output.put_floats(&merits);
    put_number(output, b" N", res.iterations);
    put_number(output, b"", res.converged);
}

// S n {surface} V m {values} D m {residuals}
pub fn put_lens(
    output: &mut Output,
    res: OptimizationResult,
    surface_count: usize,
    operand_count: usize,
)
    ensures { Puts output.old (lens_texts res surface_count operand_count) output.new }
{
    let surfaces = res.surfaces;
    let values = res.values;
    let residuals = res.residuals;
    put_number(output, b" S", surface_count as u64);
    put_all_there(output, &surfaces[..surface_count.min(16)]);
    put_row(output, b" V", values, operand_count);
    put_row(output, b" D", residuals, operand_count);
}
