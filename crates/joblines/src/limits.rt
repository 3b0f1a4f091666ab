// The settings of a trace within limits.
ghost use Rattle.text.specs.Reader.{Reads};
ghost use Rattle.joblines.specs.Limits.{pair_from, pairs_from, limits_from};

use crate::entries;
use crate::entries::Entry;
use intervals::{Interval, ThicknessLimits};
use text::reader::{Reader, Wrong};

// least greatest
impl Entry for Interval {
    ghost from = { pair_from };

    #[tactic(auto, unfolding(crate::specs::Limits::pair_from))]
    fn read(reader: &mut Reader) -> Result<Interval, Wrong> {
        let low = reader.float()?;
        let high = reader.float()?;
        Ok(Interval { low, high })
    }
}

// So many pairs, of which the first 16 are kept.
#[tactic(auto, using(floats::specs::Constants::no_number), unfolding(crate::specs::Limits::pairs_from))]
fn read_pairs(reader: &mut Reader, count: usize) -> Result<[Interval; 16], Wrong>
    ensures { Reads (pairs_from count) reader.old result reader.new }
{
    let unread = Interval {
        low: 0.0 / 0.0,
        high: 0.0 / 0.0,
    };
    let mut pairs = [unread; 16];
    entries::read_entries(reader, count, &mut pairs)?;
    Ok(pairs)
}

#[derive(Clone, Copy)]
pub struct LimitsRead {
    pub slot: usize,
    pub limits: ThicknessLimits,
}

// slot {least greatest}, a pair for each of so many surfaces
#[tactic(auto, unfolding(crate::specs::Limits::limits_from))]
pub fn read_limits(reader: &mut Reader, count: usize) -> Result<LimitsRead, Wrong>
    ensures { Reads (limits_from count) reader.old result reader.new }
{
    let slot = reader.decimal()? as usize;
    let thicknesses = read_pairs(reader, count)?;
    Ok(LimitsRead {
        slot,
        limits: ThicknessLimits { thicknesses },
    })
}
