// How many rows were tried, and how many answered right, for each entry; and what is printed of that.
ghost use Rattle.streams.specs.Output.{Puts};
ghost use Rattle.damage.specs.Tally.{line_texts, tally_texts};

use crate::entries::ENTRIES;
use streams::output::Output;

#[derive(Clone, Copy)]
pub(crate) struct Count {
    pub tried: u64,
    pub right: u64,
}

impl Count {
    // One more row tried.
    pub(crate) fn add(&mut self, is_right: bool) {
        self.tried = self.tried.wrapping_add(1);
        self.right = self.right.wrapping_add(is_right as u64);
    }
}

// A count for each entry, in their order.
pub(crate) type Tally = [Count; 56];

pub(crate) const NONE: Tally = [Count { tried: 0, right: 0 }; 56];

// A name and its two numbers.
fn put_line(output: &mut Output, name: &[u8], count: Count)
    ensures { Puts output.old (line_texts name.now count) output.new }
{
    answers::put_number(output, name, count.tried);
    answers::put_number(output, b"", count.right);
    output.put(b"\n");
}

pub(crate) fn put(output: &mut Output, tally: &Tally)
    ensures { Puts output.old (tally_texts tally.now) output.new }
{
    output.clip();
    for (entry, count) in ENTRIES.iter().zip(tally) {
        put_line(output, &entry.name, *count);
    }
}
