// The settings of the three kinds of run, each of which may be left out, as `d`.
ghost use Rattle.text.specs.Reader.{Reads};
ghost use Rattle.joblines.specs.Settings.{count_from, float_setting_from};
ghost use Rattle.joblines.specs.Settings.{damped_from, damped_method_from, multi_start_from, annealing_from, method_from};

use jobs::{DlsRequest, MethodRequest, MultiStartRequest, SimulatedAnnealingRequest};
use text::reader::{Reader, Why, Wrong};

// A count, in decimal.
#[tactic(auto, unfolding(crate::specs::Settings::count_from))]
fn read_count(reader: &mut Reader) -> Result<Option<u64>, Wrong>
    ensures { Reads (count_from 10) reader.old result reader.new }
{
    if reader.passes(b"d") {
        return Ok(None);
    }
    Ok(Some(reader.decimal()?))
}

#[tactic(auto, unfolding(crate::specs::Settings::count_from))]
fn read_seed(reader: &mut Reader) -> Result<Option<u64>, Wrong>
    ensures { Reads (count_from 16) reader.old result reader.new }
{
    if reader.passes(b"d") {
        return Ok(None);
    }
    Ok(Some(reader.hex()?))
}

#[tactic(auto, unfolding(crate::specs::Settings::float_setting_from))]
fn read_number(reader: &mut Reader) -> Result<Option<f64>, Wrong>
    ensures { Reads float_setting_from reader.old result reader.new }
{
    if reader.passes(b"d") {
        return Ok(None);
    }
    Ok(Some(reader.float()?))
}

// limit damping merit-tolerance gradient-tolerance relative-step
#[tactic(auto, unfolding(crate::specs::Settings::damped_from))]
fn read_damped(reader: &mut Reader) -> Result<DlsRequest, Wrong>
    ensures { Reads damped_from reader.old result reader.new }
{
    let max_iterations = read_count(reader)?;
    let initial_damping = read_number(reader)?;
    let relative_merit_tolerance = read_number(reader)?;
    let gradient_tolerance = read_number(reader)?;
    let finite_difference_relative_step = read_number(reader)?;
    Ok(DlsRequest {
        max_iterations,
        initial_damping,
        relative_merit_tolerance,
        gradient_tolerance,
        finite_difference_relative_step,
    })
}

fn read_damped_method(reader: &mut Reader) -> Result<MethodRequest, Wrong>
    ensures { Reads damped_method_from reader.old result reader.new }
{
    Ok(MethodRequest::Damped(read_damped(reader)?))
}

// The settings of its damped runs, then: trials seed
#[tactic(auto, unfolding(crate::specs::Settings::multi_start_from))]
fn read_multi_start(reader: &mut Reader) -> Result<MethodRequest, Wrong>
    ensures { Reads multi_start_from reader.old result reader.new }
{
    let local_dls_config = read_damped(reader)?;
    let num_trials = read_count(reader)?;
    let seed = read_seed(reader)?;
    Ok(MethodRequest::MultiStart(MultiStartRequest {
        local_dls_config,
        num_trials,
        seed,
    }))
}

// temperature cooling steps-per-temperature cycles seed
#[tactic(auto, unfolding(crate::specs::Settings::annealing_from))]
fn read_annealing(reader: &mut Reader) -> Result<MethodRequest, Wrong>
    ensures { Reads annealing_from reader.old result reader.new }
{
    let initial_temperature = read_number(reader)?;
    let cooling_rate = read_number(reader)?;
    let steps_per_temperature = read_count(reader)?;
    let max_cooling_cycles = read_count(reader)?;
    let seed = read_seed(reader)?;
    Ok(MethodRequest::Annealing(SimulatedAnnealingRequest {
        initial_temperature,
        cooling_rate,
        steps_per_temperature,
        max_cooling_cycles,
        seed,
    }))
}

// The settings of a kind; of none but the three there are any. The kind is the number that the line has, and no enum: a line of
// another is out of form where its settings begin.
#[tactic(auto, unfolding(crate::specs::Settings::method_from))]
pub(crate) fn read_method(reader: &mut Reader, kind: u64) -> Result<MethodRequest, Wrong>
    ensures { Reads (method_from kind) reader.old result reader.new }
{
    match kind {
        1 => read_damped_method(reader),
        2 => read_multi_start(reader),
        3 => read_annealing(reader),
        _ => Err(reader.wrong(Why::Kind)),
    }
}
