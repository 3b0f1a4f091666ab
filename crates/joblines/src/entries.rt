// What a count stands before: entries of one kind, one after the other.
ghost use Rattle.text.specs.Reader.{Reads, giving};
ghost use Rattle.joblines.specs.Entries.{Form, entries_from};

use text::reader::{Reader, Wrong};

// What a line lists.
pub(crate) trait Entry: Copy {
    ghost from: { Form Self };

    fn read(reader: &mut Reader) -> Result<Self, Wrong>
        ensures { Reads from reader.old result reader.new };
}

// So many entries, of which those are kept that there is room for.
pub(crate) fn read_entries<T: Entry>(
    reader: &mut Reader,
    count: usize,
    kept: &mut [T],
) -> Result<(), Wrong>
    ensures { Reads (entries_from T.from count kept.old) reader.old (giving kept.new result) reader.new }
{
    for i in 0..count {
        let entry = T::read(reader)?;
        if i < kept.len() {
            kept[i] = entry;
        }
    }
    Ok(())
}
