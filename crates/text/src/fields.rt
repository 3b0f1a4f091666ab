// The fields of a line: each read answers the field's value, and where the line goes on.
ghost use Rattle.std.specs.Prelude.{◌≡◌, ◌≤◌, ◌<◌, option_map};
ghost use Rattle.text.specs.Fields.{number_field, float_of};

use crate::{numbers, words};

// A field that is in form, and where it ends: what the contracts of a reader speak of.
#[derive(Clone, Copy)]
pub struct Field<T> {
    pub value: T,
    pub to: usize,
}

pub(crate) fn number_field(line: &[u8], at: usize, base: u64) -> Option<Field<u64>>
    requires base_nonzero { 0 < base }
    requires base_bound { base ≤ 16 }
    ensures { result ≡ number_field base line.now at }
{
    let w = words::next_word(line, at);
    let value = numbers::number_in(&line[w.from..w.to], base)?;
    Some(Field { value, to: w.to })
}

// A float, by its bits.
pub(crate) fn float_field(line: &[u8], at: usize) -> Option<Field<f64>>
    ensures { result ≡ option_map float_of (number_field 16 line.now at) }
{
    let bits = number_field(line, at, 16)?;
    Some(Field {
        value: numbers::float_of(bits.value),
        to: bits.to,
    })
}
