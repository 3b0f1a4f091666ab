// Variables.
ghost use Rattle.text.specs.Reader.{Reads};
ghost use Rattle.joblines.specs.Sets.{variable_from, variables_from};

use crate::entries;
use crate::entries::Entry;
use text::reader::{Reader, Why, Wrong};
use variables::{Follower, VariableDef, VariableType};

// type surface enabled lo hi step
impl Entry for VariableDef {
    ghost from = { variable_from };

    #[tactic(auto, unfolding(crate::specs::Sets::variable_from))]
    fn read(reader: &mut Reader) -> Result<VariableDef, Wrong> {
        let kind = reader.within(0, 3, Why::Kind)?;
        let surface = reader.decimal()?;
        let enabled = reader.within(0, 1, Why::Range)?;
        let min_value = reader.float()?;
        let max_value = reader.float()?;
        let step_size = reader.float()?;
        Ok(VariableDef {
            var_type: jobs::variable_type(kind, surface as usize),
            min_value,
            max_value,
            step_size,
            enabled: enabled == 1,
            follower: Follower::None,
        })
    }
}

// So many variables, of which the first eight are kept.
#[tactic(auto, using(floats::specs::Constants::no_number), unfolding(crate::specs::Sets::variables_from))]
pub(crate) fn read_variables(reader: &mut Reader, count: usize) -> Result<[VariableDef; 8], Wrong>
    ensures { Reads (variables_from count) reader.old result reader.new }
{
    let unread = VariableDef {
        var_type: VariableType::Curvature(usize::MAX),
        min_value: 0.0 / 0.0,
        max_value: 0.0 / 0.0,
        step_size: 0.0 / 0.0,
        enabled: true,
        follower: Follower::Plus(usize::MAX),
    };
    let mut variables = [unread; 8];
    entries::read_entries(reader, count, &mut variables)?;
    Ok(variables)
}
