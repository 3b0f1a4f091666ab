// The output, gathered in a buffer.
ghost use Rattle.std.specs.Prelude.{◌≡◌, min, [], ◌∷◌, length};
ghost use Rattle.streams.specs.Output.{new_waiting, one_refused, one_unknown, with_bytes, clipped, with_waiting, with_refused};
ghost use Rattle.streams.specs.Output.{with_unknown, Written, Puts, hex_text, decimal_text, float_text, float_texts};

use crate::console::Console;
use crate::{moves, parts};

// What waits to be written, and how the lines so far were answered.
#[derive(Clone, Copy)]
pub struct Waiting {
    // How many bytes at the start of the buffer wait.
    pub bytes: usize,
    // Whether all that went before them was written. No value goes with it, and the counts go on where it was not.
    pub is_good: bool,
    // How many lines were refused.
    pub refused: u64,
    // How many were out of form.
    pub unknown: u64,
}

impl Waiting {
    fn new() -> Waiting
        ensures { result ≡ new_waiting }
    {
        Waiting {
            bytes: 0,
            is_good: true,
            refused: 0,
            unknown: 0,
        }
    }

    fn with_bytes(self, bytes: usize) -> Waiting
        ensures { result ≡ with_bytes bytes self }
    {
        Waiting { bytes, ..self }
    }

    // No more waits than a buffer of so many bytes holds.
    fn within(self, length: usize) -> Waiting
        ensures { result ≡ clipped length self }
    {
        self.with_bytes(self.bytes.min(length))
    }

    // One more line refused, where it is.
    fn counted(self, is_refused: bool) -> Waiting
        ensures { result ≡ one_refused is_refused self }
    {
        Waiting {
            refused: self.refused.wrapping_add(u64::from(is_refused)),
            ..self
        }
    }

    // One more line out of form.
    fn counted_unknown(self) -> Waiting
        ensures { result ≡ one_unknown self }
    {
        Waiting {
            unknown: self.unknown.wrapping_add(1),
            ..self
        }
    }
}

// Writes text, where nothing failed before it. Nothing waits then.
fn written(console: Console, waiting: Waiting, text: &[u8]) -> Waiting
    ensures { Written (length text.now) waiting result }
{
    if !waiting.is_good {
        return waiting.with_bytes(0);
    }
    Waiting {
        bytes: 0,
        is_good: moves::write_all(console, text).is_ok(),
        ..waiting
    }
}

// Where the output goes, the buffer that it is gathered in, and what waits there.
#[derive(Drop)]
pub struct Output<'a> {
    pub console: Console,
    pub buffer: &'a mut [u8],
    pub waiting: Waiting,
}

impl<'a> Output<'a> {
    pub fn new(console: Console, buffer: &'a mut [u8]) -> Output<'a>
        ensures lent { result.buffer.ghost_name ≡ buffer.entry.ghost_name }
        ensures empty { (result.waiting ≡ new_waiting) × (result.buffer.now ≡ buffer.old) }
        ensures console { result.console ≡ console }
    {
        Output {
            console,
            buffer,
            waiting: Waiting::new(),
        }
    }

    // No more waits than the buffer holds.
    pub fn clip(&mut self)
        ensures { self.new ≡ with_waiting (clipped (length self.old.buffer.now) self.old.waiting) self.old }
    {
        self.waiting = self.waiting.within(self.buffer.len());
    }

    // Counts one more line refused, where it is.
    pub fn count(&mut self, is_refused: bool)
        ensures { self.new ≡ with_refused is_refused self.old }
    {
        self.waiting = self.waiting.counted(is_refused);
    }

    // Counts one more line out of form.
    pub fn count_unknown(&mut self)
        ensures { self.new ≡ with_unknown self.old }
    {
        self.waiting = self.waiting.counted_unknown();
    }

    // What waits once what waited is written.
    fn flushed(&self) -> Waiting
        ensures { Written (min self.now.waiting.bytes (length self.now.buffer.now)) self.now.waiting result }
    {
        let n = self.waiting.bytes.min(self.buffer.len());
        written(self.console, self.waiting, &self.buffer[..n])
    }

    // Writes what waits.
    pub fn flush(&mut self)
        ensures written { Written (min self.old.waiting.bytes (length self.old.buffer.now)) self.old.waiting self.new.waiting }
        ensures same { self.new ≡ with_waiting self.new.waiting self.old }
    {
        self.waiting = self.flushed();
    }

    // Adds text to what waits. What there is no room for beside it is written first.
    pub fn put(&mut self, text: &[u8])
        ensures { Puts self.old (text.now ∷ []) self.new }
    {
        if text.len() > self.buffer.len() {
            self.waiting = written(self.console, self.flushed(), text);
            return;
        }
        let held = self.waiting.bytes.min(self.buffer.len());
        if held > self.buffer.len() - text.len() {
            let flushed = self.flushed();
            self.waiting = flushed.with_bytes(parts::copy(text, self.buffer));
            return;
        }
        let bytes = parts::copy(text, &mut self.buffer[held..]);
        self.waiting = self.waiting.with_bytes(held + bytes);
    }

    // Adds a number's sixteen hexadecimal digits.
    pub fn put_hex(&mut self, x: u64)
        ensures { Puts self.old (hex_text x ∷ []) self.new }
    {
        let mut text = [0u8; 16];
        let n = io::hex(x, 16, &mut text);
        self.put(&text[..n]);
    }

    // Adds a number's decimal digits.
    pub fn put_decimal(&mut self, x: u64)
        ensures { Puts self.old (decimal_text x ∷ []) self.new }
    {
        let mut text = [0u8; 20];
        let n = io::decimal(x, &mut text);
        self.put(&text[..n]);
    }

    // Adds the digits of a float's bits, or `nan`.
    pub fn put_float(&mut self, x: f64)
        ensures { Puts self.old (float_text x ∷ []) self.new }
    {
        if x != x {
            self.put(b"nan");
        } else {
            self.put_hex(f64::to_bits(x));
        }
    }

    // Adds floats, each after a blank.
    pub fn put_floats(&mut self, row: &[f64])
        ensures { Puts self.old (float_texts row.now) self.new }
    {
        self.clip();
        for x in row {
            self.put(b" ");
            self.put_float(*x);
        }
    }
}
