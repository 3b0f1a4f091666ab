// A job line: its kind, and the part from its surfaces up to its settings.
ghost use Rattle.text.specs.Reader.{Reads};
ghost use Rattle.joblines.specs.Line.{kind_from, counted_from, prescription_from, variable_set_from, merit_function_from, job_line_from};

use crate::{followers, lens, operands, sets};
use merit::MeritFunction;
use optics::OpticalPrescription;
use text::reader::{Reader, Why, Wrong};
use variables::VariableSet;

// J id kind, of the kinds from 1 to `last`
pub fn read_kind(reader: &mut Reader, last: u64) -> Result<u64, Wrong>
    ensures { Reads (kind_from last) reader.old result reader.new }
{
    reader.tag(b"J")?;
    reader.word();
    reader.within(1, last, Why::Kind)
}

// A letter, and the count behind it.
#[tactic(auto, unfolding(crate::specs::Line::counted_from))]
fn read_counted(reader: &mut Reader, mark: &[u8]) -> Result<usize, Wrong>
    ensures { Reads (counted_from mark.now) reader.old result reader.new }
{
    reader.tag(mark)?;
    Ok(reader.decimal()? as usize)
}

// S n {surface} I slots {index, surface-major} P pupil
#[tactic(auto, unfolding(crate::specs::Line::prescription_from))]
fn read_prescription(reader: &mut Reader) -> Result<OpticalPrescription, Wrong>
    ensures { Reads prescription_from reader.old result reader.new }
{
    let surface_count = read_counted(reader, b"S")?;
    let surfaces = lens::read_surfaces(reader, surface_count)?;
    let slot_count = read_counted(reader, b"I")?;
    let indices = lens::read_indices(reader, surface_count, slot_count)?;
    reader.tag(b"P")?;
    let entrance_pupil_diameter_mm = reader.float()?;
    Ok(OpticalPrescription {
        surfaces,
        indices,
        surface_count,
        slot_count,
        entrance_pupil_diameter_mm,
    })
}

// V n {variable} [F m {follower}]
#[tactic(auto, unfolding(crate::specs::Line::variable_set_from))]
fn read_variable_set(reader: &mut Reader) -> Result<VariableSet, Wrong>
    ensures { Reads variable_set_from reader.old result reader.new }
{
    let variable_count = read_counted(reader, b"V")?;
    let mut variables = sets::read_variables(reader, variable_count)?;
    followers::read_followers(reader, &mut variables, variable_count)?;
    Ok(VariableSet {
        variables,
        variable_count,
    })
}

// O n {operand}
#[tactic(auto, unfolding(crate::specs::Line::merit_function_from))]
fn read_merit_function(reader: &mut Reader) -> Result<MeritFunction, Wrong>
    ensures { Reads merit_function_from reader.old result reader.new }
{
    let operand_count = read_counted(reader, b"O")?;
    let operands = operands::read_operands(reader, operand_count)?;
    Ok(MeritFunction {
        operands,
        operand_count,
    })
}

// What a job line gives before its settings.
#[derive(Clone, Copy)]
pub struct JobLine {
    pub prescription: OpticalPrescription,
    pub variables: VariableSet,
    pub merit_function: MeritFunction,
}

// S .. I .. P .. V .. [F ..] O .. C
#[tactic(auto, unfolding(crate::specs::Line::job_line_from))]
pub fn read_job(reader: &mut Reader) -> Result<JobLine, Wrong>
    ensures { Reads job_line_from reader.old result reader.new }
{
    let prescription = read_prescription(reader)?;
    let variables = read_variable_set(reader)?;
    let merit_function = read_merit_function(reader)?;
    reader.tag(b"C")?;
    Ok(JobLine {
        prescription,
        variables,
        merit_function,
    })
}
