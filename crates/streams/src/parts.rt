// Parts of a buffer: where a byte stands in one, and a text at its start.
ghost use Rattle.std.specs.Prelude.{◌≡◌, ◌+◌, ◌≤◌, ◌++◌, ◌==◌, length, drop};
ghost use Rattle.std.specs.List.{position};
ghost use Rattle.streams.specs.Parts.{index_of, slice};

// Where the first such byte stands in a part.
fn place_in(part: &[u8], byte: u8) -> Option<usize>
    ensures { result ≡ position (λ x. x == byte) part.now }
{
    part.iter().position(
        |b: &u8| -> bool
            ensures { result ≡ (b.now == byte) }
        { *b == byte },
    )
}

// The same, or how long the part is.
fn index_in(part: &[u8], byte: u8) -> usize
    ensures value { result ≡ index_of byte part.now }
    ensures within { result ≤ length part.now }
{
    place_in(part, byte).unwrap_or(part.len())
}

// The same from `from` up to `to`: `to` where there is none.
pub(crate) fn find(buf: &[u8], from: usize, to: usize, byte: u8) -> usize
    requires from_le_to { from ≤ to }
    requires to_in_bounds { to ≤ length buf.now }
    ensures value { result ≡ from + index_of byte (slice from to buf.now) }
    ensures within { (from ≤ result) × (result ≤ to) }
{
    from + index_in(&buf[from..to], byte)
}

// Writes text to the start of the buffer, and answers how many bytes it has.
pub(crate) fn copy(text: &[u8], out: &mut [u8]) -> usize
    requires { length text.now ≤ length out.old }
    ensures value { result ≡ length text.now }
    ensures after { out.new ≡ text.now ++ drop (length text.now) out.old }
{
    let n = text.len();
    out[..n].copy_from_slice(text);
    n
}
