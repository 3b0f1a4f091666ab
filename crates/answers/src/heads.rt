// The first and the last words of an answer.
ghost use Rattle.std.specs.Prelude.{true, [], ◌∷◌};
ghost use Rattle.streams.specs.Output.{Puts, with_refused};
ghost use Rattle.answers.specs.Heads.{head_texts, kept_text, refused_texts, digest_texts};

use crate::pieces::put_number;
use streams::output::Output;
use text::reader::Reader;

// R id kind, of a line that is in form: its id is its second word.
pub fn put_head(output: &mut Output, line: &[u8], kind: u64)
    ensures { Puts output.old (head_texts line.now kind) output.new }
{
    let mut reader = Reader::new(line);
    reader.word();
    output.put(b"R ");
    put_number(output, reader.word(), kind);
}

// The line's end, after `changed` where what was lent is not as it was, which the oracle never says.
pub fn put_kept(output: &mut Output, is_kept: bool)
    ensures { Puts output.old (kept_text is_kept ∷ []) output.new }
{
    if is_kept {
        output.put(b"\n");
    } else {
        output.put(b" changed\n");
    }
}

// refused N, of a line that is counted so.
pub fn put_refused(output: &mut Output, number: u32, is_kept: bool)
    ensures { Puts (with_refused true output.old) (refused_texts number is_kept) output.new }
{
    output.count(true);
    put_number(output, b" refused", number as u64);
    put_kept(output, is_kept);
}

// H digest
pub fn put_digest(output: &mut Output, hash: u64)
    ensures { Puts output.old (digest_texts hash) output.new }
{
    output.put(b" H ");
    output.put_hex(hash);
    output.put(b"\n");
}
