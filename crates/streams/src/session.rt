// What all programs over lines end with.
ghost use Rattle.streams.specs.Output.{Puts};
ghost use Rattle.streams.specs.Session.{count_texts, end_texts};

use crate::input::Input;
use crate::output::Output;

impl Output<'_> {
    // A number, and what is counted by it.
    fn put_count(&mut self, count: u64, name: &[u8])
        ensures { Puts self.old (count_texts count name.now) self.new }
    {
        self.put_decimal(count);
        self.put(name);
    }

    // end N lines, M refused, K out of form
    fn put_end(&mut self, lines: u64)
        ensures { Puts self.old (end_texts lines self.old.waiting) self.new }
    {
        let refused = self.waiting.refused;
        let unknown = self.waiting.unknown;
        self.put(b"end ");
        self.put_count(lines, b" lines, ");
        self.put_count(refused, b" refused, ");
        self.put_count(unknown, b" out of form\n");
    }

    // Writes what waits, and the last line where all lines were read: where it is missing, an output is cut.
    pub fn finish(&mut self, input: Input) {
        if input.is_good() {
            self.put_end(input.lines());
        }
        self.flush();
    }
}
