// Pieces of answers.
ghost use Rattle.std.specs.Prelude.{◌≡◌, [], ◌∷◌};
ghost use Rattle.streams.specs.Output.{Puts, with_unknown};
ghost use Rattle.answers.specs.Pieces.{wrong_text, fault_text, unknown_texts, cut_texts, number_texts, row_texts};

use streams::output::Output;
use text::reader::{Why, Wrong};
use text::words;

// What is wrong with a word.
#[tactic(auto, unfolding(crate::specs::Pieces::wrong_text))]
fn wrong_text(why: Why) -> &'static [u8]
    ensures { result.now ≡ wrong_text why }
{
    match why {
        Why::TooMany => b"too many\n",
        Why::NoNumber => b"no number\n",
        Why::NoHex => b"not 16 hex digits\n",
        Why::Another => b"another word\n",
        Why::Kind => b"kind unknown\n",
        Why::Range => b"out of range\n",
    }
}

// What is wrong where a line is out of form.
fn put_fault(output: &mut Output, line: &[u8], wrong: Wrong)
    ensures { Puts output.old (fault_text line.now wrong ∷ []) output.new }
{
    if words::is_end(line, wrong.at) {
        output.put(b"missing\n");
    } else {
        output.put(wrong_text(wrong.why));
    }
}

// The answer to a line that is out of form: its number, the field where it is, and what is wrong there.
pub fn put_unknown(output: &mut Output, line: &[u8], number: u64, wrong: Wrong)
    ensures { Puts (with_unknown output.old) (unknown_texts line.now number wrong) output.new }
{
    let field = words::words_before(line, wrong.at).wrapping_add(1);
    output.count_unknown();
    put_number(output, b"?", number);
    put_number(output, b" field", field);
    output.put(b": ");
    put_fault(output, line, wrong);
}

// The answer to a line that is too long for the buffer.
pub fn put_cut(output: &mut Output, number: u64)
    ensures { Puts (with_unknown output.old) (cut_texts number) output.new }
{
    output.count_unknown();
    put_number(output, b"?", number);
    output.put(b" too long\n");
}

// A name, a blank and a number.
pub fn put_number(output: &mut Output, name: &[u8], number: u64)
    ensures { Puts output.old (number_texts name.now number) output.new }
{
    output.put(name);
    output.put(b" ");
    output.put_decimal(number);
}

// A name, a count, and so many floats of a row. The count is put as it stands, also past the row: so it is no slice's length.
pub fn put_row(output: &mut Output, name: &[u8], row: [f64; 12], count: usize)
    ensures { Puts output.old (row_texts name.now row count) output.new }
{
    put_number(output, name, count as u64);
    output.put_floats(&row[..count.min(12)]);
}
