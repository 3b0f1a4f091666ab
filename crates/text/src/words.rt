// The words of a line, one after the other.
ghost use Rattle.std.specs.Prelude.{◌≡◌, ◌+◌, ◌≤◌, length, drop};
ghost use Rattle.text.specs.Words.{is_blank, leading, word_from, none_left, begins, words_before};

// A word: the bytes of its line from `from` up to `to`. There is none where the two are equal. It is two places and no slice,
// since a line is read on from `to`.
#[derive(Clone, Copy)]
pub struct Word {
    pub from: usize,
    pub to: usize,
}

// Rust's ASCII whitespace: a space, and tab to carriage return but for the vertical tab.
fn is_blank(b: u8) -> bool
    ensures { result ≡ is_blank b }
{
    b.is_ascii_whitespace()
}

// How many of the first bytes are blank, or are not.
fn leading(text: &[u8], blank: bool) -> usize
    ensures value { result ≡ leading blank text.now }
    ensures within { result ≤ length text.now }
{
    text.iter().take_while(|b| is_blank(**b) == blank).count()
}

// Where the bytes end that are blank, or that are not, from `at` on.
fn skip(line: &[u8], at: usize, blank: bool) -> usize
    requires { at ≤ length line.now }
    ensures lower_bound { at ≤ result }
    ensures upper_bound { result ≤ length line.now }
    ensures value { result ≡ at + leading blank (drop at line.now) }
{
    at + leading(&line[at..], blank)
}

// The next word from `at` on.
pub fn next_word(line: &[u8], at: usize) -> Word
    ensures from_le_to { result.from ≤ result.to }
    ensures to_in_bounds { result.to ≤ length line.now }
    ensures value { result ≡ word_from line.now at }
{
    let from = skip(line, at.min(line.len()), true);
    let to = skip(line, from, false);
    Word { from, to }
}

// Whether no word is left from `at` on.
pub fn is_end(line: &[u8], at: usize) -> bool
    ensures { result ≡ none_left line.now at }
{
    let w = next_word(line, at);
    w.from == w.to
}

// 1 where a byte begins a word, and else 0.
fn begins(is_between: bool, blank: bool) -> u64
    ensures value { result ≡ begins is_between blank }
    ensures upper_bound { result ≤ 1 }
{
    if blank {
        return 0;
    }
    u64::from(is_between)
}

// How many words begin before `at`.
pub fn words_before(line: &[u8], at: usize) -> u64
    ensures { result ≡ words_before line.now at }
{
    let mut count = 0;
    let mut is_between = true;
    for b in &line[..at.min(line.len())] {
        let blank = is_blank(*b);
        count += begins(is_between, blank);
        is_between = blank;
    }
    count
}
