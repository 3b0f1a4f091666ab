// An evaluation, written.
ghost use Rattle.streams.specs.Output.{Puts};
ghost use Rattle.lensanswers.specs.Lens.{evaluation_texts};

use answers::put_row;
use merit::MeritEvaluation;
use streams::output::Output;

// M total V m {values} D m {residuals}
pub fn put_evaluation(output: &mut Output, e: MeritEvaluation, count: usize)
    ensures { Puts output.old (evaluation_texts e count) output.new }
{
    let values = e.values;
    let residuals = e.residuals;
    output.put(b" M ");
    output.put_float(e.total_merit);
    put_row(output, b" V", values, count);
    put_row(output, b" D", residuals, count);
}
