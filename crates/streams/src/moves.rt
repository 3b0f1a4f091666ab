// Bytes to and from the system. A call that was only interrupted, or that finds nothing at the moment, is made again; what
// fails otherwise is said on standard error.
ghost use Rattle.std.specs.Prelude.{◌≡◌, ◌≤◌, length, IfSome, IfOk, IsOk};

use crate::console::Console;
use crate::parts;
use std::io::{Error, ErrorKind, Print, Read, Write};

// A call that failed, which was said on standard error.
#[derive(Clone, Copy)]
pub(crate) struct Failed;

// Whether the call that just failed may be made again.
fn is_passing(error: &Error) -> bool {
    error.kind() == ErrorKind::Interrupted || error.kind() == ErrorKind::WouldBlock
}

// Writes what the system says of an error, without its number, and answers how many bytes that has.
fn put_message(error: &Error, text: &mut [u8]) -> usize
    ensures { result ≤ length text.new }
{
    let room = text.len();
    let mut rest = &mut text[..];
    let _ = write!(rest, "{error} (");
    let left = rest.len();
    let n = room - left.min(room);
    parts::find(text, 0, n, b'(').saturating_sub(1)
}

// Says what failed, and why.
fn report(console: Console, what: &[u8], error: &Error) -> Failed {
    let mut text = [0u8; 320];
    let n = put_message(error, &mut text);
    let _ = console.errors.write_all(what);
    let _ = console.errors.write_all(b": ");
    let _ = console.errors.write_all(&text[..n]);
    let _ = console.errors.write_all(b"\n");
    Failed
}

// One read: how many bytes there are at the moment, and nothing of an answer where it may be made again.
fn read_once(console: Console, room: &mut [u8]) -> Option<Result<usize, Failed>>
    ensures { IfSome result (λ came. IfOk came (λ bytes. bytes ≤ length room.new)) }
{
    let mut input = console.input;
    match input.read(room) {
        Ok(bytes) => Some(Ok(bytes)),
        Err(error) if is_passing(&error) => None,
        Err(error) => Some(Err(report(console, b"standard input", &error))),
    }
}

// Waits for bytes, and reads what there is: none at the end of the input. A proved loop has to end: the tries are counted down,
// from a number that no run uses up.
pub(crate) fn read_some(console: Console, room: &mut [u8]) -> Result<usize, Failed>
    ensures { IfOk result (λ bytes. bytes ≤ length room.new) }
{
    for _ in 0..u64::MAX {
        if let Some(came) = read_once(console, room) {
            return came;
        }
    }
    let used_up = Error::from(ErrorKind::TimedOut);
    Err(report(console, b"standard input", &used_up))
}

// One write: how much the system takes at the moment.
fn write_some(console: Console, text: &[u8]) -> Result<usize, Failed>
    ensures { IfOk result (λ bytes. bytes ≤ length text.now) }
{
    match console.output.write_some(text) {
        Ok(0) => {
            let nothing = Error::from(ErrorKind::WriteZero);
            Err(report(console, b"standard output", &nothing))
        }
        Ok(bytes) => Ok(bytes),
        Err(error) if is_passing(&error) => Ok(0),
        Err(error) => Err(report(console, b"standard output", &error)),
    }
}

// Writes all of text. The writes are counted, as the tries above.
pub(crate) fn write_all(console: Console, text: &[u8]) -> Result<(), Failed>
    ensures { length text.now ≡ 0 → IsOk result }
{
    let mut rest = text;
    for _ in 0..u64::MAX {
        if rest.is_empty() {
            return Ok(());
        }
        let bytes = write_some(console, rest)?;
        rest = &rest[bytes..];
    }
    let used_up = Error::from(ErrorKind::TimedOut);
    Err(report(console, b"standard output", &used_up))
}
