// Operands.
ghost use Rattle.text.specs.Reader.{Reads};
ghost use Rattle.joblines.specs.Operands.{operand_from, operands_from};

use crate::entries;
use crate::entries::Entry;
use merit::{MeritOperand, OperandType};
use text::reader::{Reader, Why, Wrong};

// kind at limit target weight
impl Entry for MeritOperand {
    ghost from = { operand_from };

    #[tactic(auto, unfolding(crate::specs::Operands::operand_from))]
    fn read(reader: &mut Reader) -> Result<MeritOperand, Wrong> {
        let kind = reader.within(0, 7, Why::Kind)?;
        let at = reader.decimal()?;
        let limit = reader.float()?;
        let target = reader.float()?;
        let weight = reader.float()?;
        Ok(MeritOperand {
            operand_type: jobs::operand_type(kind, at as usize, limit),
            target,
            weight,
        })
    }
}

// So many operands, of which the first twelve are kept.
#[tactic(auto, using(floats::specs::Constants::no_number), unfolding(crate::specs::Operands::operands_from))]
pub(crate) fn read_operands(reader: &mut Reader, count: usize) -> Result<[MeritOperand; 12], Wrong>
    ensures { Reads (operands_from count) reader.old result reader.new }
{
    let unread = MeritOperand {
        operand_type: OperandType::EffectiveFocalLength(usize::MAX),
        target: 0.0 / 0.0,
        weight: 0.0 / 0.0,
    };
    let mut operands = [unread; 12];
    entries::read_entries(reader, count, &mut operands)?;
    Ok(operands)
}
