// A line read field by field. Each read answers the field's value, or where the line is out of form and why, and then the reader
// stays there; what asks for a line's fields one after the other ends at the first that is, by `?`.
ghost use Rattle.std.specs.Prelude.{◌≡◌, ◌≤◌, cond, length, IfOk};
ghost use Rattle.text.specs.declared.reader.Why.TheVariants.{Kind};
ghost use Rattle.text.specs.Fields.{text_of};
ghost use Rattle.text.specs.Words.{between, word_from};
ghost use Rattle.text.specs.Reader.{Reads, wrong, field_or, moved_to, number_from, decimal_from, within_from, float_from, begins_with};
ghost use Rattle.text.specs.Reader.{past_word, tag_from, past_floats, floats_over, floats_or_zeros, end_from};

use crate::fields::Field;
use crate::{fields, words};

// What is wrong with a word that is there.
#[derive(Clone, Copy)]
pub enum Why {
    // The line should end before it.
    TooMany,
    // No number in decimal.
    NoNumber,
    // Not sixteen hexadecimal digits.
    NoHex,
    // Another word belongs there.
    Another,
    // No kind has that name or number.
    Kind,
    // The number is not one of those that may stand there.
    Range,
}

// A line that is out of form: from where on, and what is wrong with the next word, if there is one.
#[derive(Clone, Copy)]
pub struct Wrong {
    pub at: usize,
    pub why: Why,
}

impl Wrong {
    // A line of an unknown name is out of form at its first word.
    pub fn unknown_name() -> Wrong
        ensures { (result.at ≡ 0) × (result.why ≡ Kind) }
    {
        Wrong {
            at: 0,
            why: Why::Kind,
        }
    }
}

// A line, and where its next field is looked for.
#[derive(Clone, Copy)]
pub struct Reader<'a> {
    pub line: &'a [u8],
    pub at: usize,
}

fn is_between(x: u64, low: u64, high: u64) -> bool
    ensures { result ≡ between low high x }
{
    low <= x && x <= high
}

impl<'a> Reader<'a> {
    pub fn new(line: &'a [u8]) -> Reader<'a>
        ensures { (result.line.now ≡ line.now) × (result.at ≡ 0) }
    {
        Reader { line, at: 0 }
    }

    // What is wrong where the reader stands.
    pub fn wrong(&self, why: Why) -> Wrong
        ensures { (result.at ≡ self.now.at) × (result.why ≡ why) }
    {
        Wrong { at: self.at, why }
    }

    // Past a field, where one in form was found.
    fn pass<T>(&mut self, field: Option<Field<T>>, why: Why) -> Result<T, Wrong>
        ensures { Reads (λ line at. field_or why at field) self.old result self.new }
    {
        let Some(field) = field else {
            return Err(self.wrong(why));
        };
        self.at = field.to;
        Ok(field.value)
    }

    pub fn decimal(&mut self) -> Result<u64, Wrong>
        ensures { Reads decimal_from self.old result self.new }
    {
        let field = fields::number_field(self.line, self.at, 10);
        self.pass(field, Why::NoNumber)
    }

    // A number from `low` to `high`; any other is out of form for the reason given.
    pub fn within(&mut self, low: u64, high: u64, why: Why) -> Result<u64, Wrong>
        ensures value { Reads (within_from low high why) self.old result self.new }
        ensures bounds { IfOk result (λ x. (low ≤ x) × (x ≤ high)) }
    {
        let out_of_form = self.wrong(why);
        let x = self.decimal()?;
        if is_between(x, low, high) {
            return Ok(x);
        }
        self.at = out_of_form.at;
        Err(out_of_form)
    }

    pub fn hex(&mut self) -> Result<u64, Wrong>
        ensures { Reads (number_from 16) self.old result self.new }
    {
        let field = fields::number_field(self.line, self.at, 16);
        self.pass(field, Why::NoHex)
    }

    pub fn float(&mut self) -> Result<f64, Wrong>
        ensures { Reads float_from self.old result self.new }
    {
        let field = fields::float_field(self.line, self.at);
        self.pass(field, Why::NoHex)
    }

    // The next floats, as many as `row` has room for. From the first that is out of form on, the row stays as it was.
    pub fn floats(&mut self, row: &mut [f64]) -> Result<(), Wrong>
        ensures value { Reads (past_floats (length row.old)) self.old result self.new }
        ensures row_after { row.new ≡ floats_over self.old.line.now self.old.at row.old }
    {
        for x in row {
            *x = self.float()?;
        }
        Ok(())
    }

    // The same, but that the row is +0.0 from the first that is out of form on.
    pub fn floats_or_zeros(&mut self, row: &mut [f64]) -> Result<(), Wrong>
        ensures value { Reads (past_floats (length row.old)) self.old result self.new }
        ensures row_after { row.new ≡ floats_or_zeros self.old.line.now self.old.at row.old }
    {
        for i in 0..row.len() {
            match self.float() {
                Ok(x) => row[i] = x,
                Err(wrong) => {
                    row[i..].fill(0.0);
                    return Err(wrong);
                }
            }
        }
        Ok(())
    }

    // The next word, which may be any.
    pub fn word(&mut self) -> &'a [u8]
        ensures value { result.now ≡ text_of self.old.line.now (word_from self.old.line.now self.old.at) }
        ensures after { self.new ≡ moved_to (past_word self.old.line.now self.old.at) self.old }
    {
        let w = words::next_word(self.line, self.at);
        self.at = w.to;
        &self.line[w.from..w.to]
    }

    // Past a word where it is the next one.
    pub fn passes(&mut self, name: &[u8]) -> bool
        ensures value { result ≡ begins_with self.old.line.now self.old.at name.now }
        ensures after { self.new ≡ cond result (moved_to (past_word self.old.line.now self.old.at) self.old) self.old }
    {
        let w = words::next_word(self.line, self.at);
        let is_next = check::same(&self.line[w.from..w.to], name);
        if is_next {
            self.at = w.to;
        }
        is_next
    }

    // Past a word that has to be there.
    pub fn tag(&mut self, name: &[u8]) -> Result<(), Wrong>
        ensures { Reads (tag_from name.now) self.old result self.new }
    {
        if self.passes(name) {
            return Ok(());
        }
        Err(self.wrong(Why::Another))
    }

    // Nothing, where the line ends here.
    pub fn end(&self) -> Result<(), Wrong>
        ensures { result ≡ end_from self.now.line.now self.now.at }
    {
        if words::is_end(self.line, self.at) {
            return Ok(());
        }
        Err(self.wrong(Why::TooMany))
    }
}
