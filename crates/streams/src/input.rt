// The input, read into a buffer a part at a time, and taken from it line by line.
ghost use Rattle.std.specs.Prelude.{◌≡◌, ◌-◌, ◌<◌, ◌≤◌, length, take, drop, IfSome};
ghost use Rattle.streams.specs.Input.{new_input, lines_of, line_to, held_line, is_left, last_line, not_yet, line_from, placed_at, roomed, held_bytes};
ghost use Rattle.streams.specs.Input.{has_more, is_open, is_good, over, stage_after, ReadOn, WentOn};

use crate::console::Console;
use crate::moves::Failed;
use crate::{moves, parts};

// How far the input has come.
#[derive(Clone, Copy)]
pub enum Stage {
    // Another read may bring more.
    Reading,
    // A read brought nothing: what is left is the last line.
    Ended,
    // The last line was taken.
    Done,
    // A read failed: there is no further line.
    Failed,
}

impl Stage {
    // What comes of it once the last line is taken.
    fn over(self) -> Stage
        ensures { result ≡ over self }
    {
        match self {
            Stage::Failed => Stage::Failed,
            _ => Stage::Done,
        }
    }
}

// What is read of the input, and not taken yet.
#[derive(Clone, Copy)]
pub struct Input {
    // The bytes of the buffer from `from` up to `to`.
    pub from: usize,
    pub to: usize,
    // The number of the line that begins there.
    pub number: u64,
    // Whether the start of that line is gone, since the buffer does not hold the whole. No value goes with it: the rest stands there.
    pub is_cut: bool,
    pub stage: Stage,
}

impl Input {
    pub fn new() -> Input
        ensures { (result ≡ new_input) × (result.from ≡ 0) × (result.to ≡ 0) }
    {
        Input {
            from: 0,
            to: 0,
            number: 1,
            is_cut: false,
            stage: Stage::Reading,
        }
    }

    // Whether another read may bring more.
    fn has_more(&self) -> bool
        ensures { result ≡ has_more self.now }
    {
        matches!(self.stage, Stage::Reading)
    }

    // Whether there may be another line.
    pub fn is_open(&self) -> bool
        ensures { result ≡ is_open self.now }
    {
        matches!(self.stage, Stage::Reading | Stage::Ended)
    }

    // Whether every read went well.
    pub(crate) fn is_good(&self) -> bool
        ensures { result ≡ is_good self.now }
    {
        !matches!(self.stage, Stage::Failed)
    }

    // How many lines were taken: one less than the number of the line that comes next.
    pub(crate) fn lines(self) -> u64
        ensures { result ≡ lines_of self }
    {
        self.number.wrapping_add(u64::MAX)
    }

    // Whether something of a line is left at the end of the input.
    fn is_left(self) -> bool
        ensures { result ≡ is_left self }
    {
        self.from < self.to || self.is_cut
    }

    // What is left at the end of the input: a last line needs no line feed.
    fn last_line(self) -> Found
        ensures { result ≡ last_line self }
    {
        let is_there = self.is_left();
        let line = is_there.then_some(Line {
            from: self.from,
            to: self.to,
            number: self.number,
            is_cut: self.is_cut,
        });
        let rest = Input {
            from: self.to,
            number: self.number.wrapping_add(u64::from(is_there)),
            is_cut: false,
            stage: self.stage.over(),
            ..self
        };
        Found { line, input: rest }
    }

    fn not_yet(self) -> Found
        ensures { result ≡ not_yet self }
    {
        Found {
            line: None,
            input: self,
        }
    }

    // The same line in the first `to` bytes.
    fn placed(self, to: usize, is_cut: bool) -> Input
        ensures { result ≡ placed_at to is_cut self }
    {
        Input {
            from: 0,
            to,
            is_cut,
            ..self
        }
    }
}

// A line: the bytes of the buffer from `from` up to `to`, which the next read may write over.
#[derive(Clone, Copy)]
pub struct Line {
    pub from: usize,
    pub to: usize,
    pub number: u64,
    // Whether its start is gone. The rest of it stands there all the same, so it is no variant of its own.
    pub is_cut: bool,
}

// What was looked for: a line, unless its end has yet to be read, and what comes after it.
#[derive(Clone, Copy)]
pub struct Found {
    pub line: Option<Line>,
    pub input: Input,
}

// Where a line ends that has its line feed at `end`: a carriage return before that is no part of it.
fn line_end(buf: &[u8], from: usize, end: usize) -> usize
    requires from_le_end { from ≤ end }
    requires end_in_bounds { end ≤ length buf.now }
    ensures { (result ≡ line_to buf.now from end) × (from ≤ result) × (result ≤ end) }
{
    if from < end {
        if buf[end - 1] == b'\r' {
            return end - 1;
        }
    }
    end
}

// The line whose line feed stands at `end`.
fn held_line(buf: &[u8], input: Input, end: usize) -> Found
    requires from_le_end { input.from ≤ end }
    requires end_lt_to { end < input.to }
    requires to_in_bounds { input.to ≤ length buf.now }
    ensures value { result ≡ held_line buf.now input end }
    ensures from_le_to { IfSome result.line (λ line. (line.from ≤ line.to) × (line.to ≤ end)) }
{
    let rest = Input {
        from: end + 1,
        number: input.number.wrapping_add(1),
        is_cut: false,
        ..input
    };
    let line = Line {
        from: input.from,
        to: line_end(buf, input.from, end),
        number: input.number,
        is_cut: input.is_cut,
    };
    Found {
        line: Some(line),
        input: rest,
    }
}

// The next line where the buffer holds it whole or the input is at its end.
pub fn next_line(buf: &[u8], input: Input) -> Found
    requires from_le_to { input.from ≤ input.to }
    requires to_in_bounds { input.to ≤ length buf.now }
    ensures value { result ≡ line_from buf.now input }
    ensures from_le_to_2 { IfSome result.line (λ line. (line.from ≤ line.to) × (line.to ≤ length buf.now)) }
    ensures from_le_to_3 { (result.input.from ≤ result.input.to) × (result.input.to ≤ length buf.now) }
{
    let end = parts::find(buf, input.from, input.to, b'\n');
    if end < input.to {
        return held_line(buf, input, end);
    }
    if input.has_more() {
        return input.not_yet();
    }
    input.last_line()
}

// What comes after a line; where none was there yet, after one more read.
pub fn go_on(console: Console, buf: &mut [u8], found: Found) -> Input
    requires from_le_to { found.input.from ≤ found.input.to }
    requires to_in_bounds { found.input.to ≤ length buf.old }
    ensures from_le_to_2 { (result.from ≤ result.to) × (result.to ≤ length buf.new) }
    ensures went_on { WentOn buf.old found buf.new result }
{
    let input = found.input;
    if found.line.is_some() {
        return input;
    }
    if input.has_more() {
        return read_on(console, buf, input);
    }
    input
}

// Moves the bytes from `from` up to `to` to the front.
fn move_front(buf: &mut [u8], from: usize, to: usize)
    requires from_le_to { from ≤ to }
    requires to_in_bounds { to ≤ length buf.old }
    ensures { take (to - from) buf.new ≡ take (to - from) (drop from buf.old) }
{
    buf.copy_within(from..to, 0);
}

// The input with room for more in the buffer: what is not taken is moved to the front, and where that fills the buffer it is
// dropped.
fn with_room(buf: &mut [u8], input: Input) -> Input
    requires from_le_to { input.from ≤ input.to }
    requires to_in_bounds { input.to ≤ length buf.old }
    ensures value { (result ≡ roomed (length buf.old) input) × (result.to ≤ length buf.new) }
    ensures buf_after { take result.to buf.new ≡ held_bytes buf.old input }
{
    let from = input.from;
    let to = input.to;
    if to - from == buf.len() {
        return input.placed(0, true);
    }
    move_front(buf, from, to);
    input.placed(to - from, input.is_cut)
}

// How far the input has come with a read.
fn stage_after(came: Result<usize, Failed>) -> Stage
    ensures { result ≡ stage_after came }
{
    match came {
        Ok(0) => Stage::Ended,
        Ok(_) => Stage::Reading,
        Err(_) => Stage::Failed,
    }
}

// The input after one more read. There is no more where nothing came, and no further line where the read failed.
fn read_on(console: Console, buf: &mut [u8], input: Input) -> Input
    requires from_le_to { input.from ≤ input.to }
    requires to_in_bounds { input.to ≤ length buf.old }
    ensures from_le_to_2 { (result.from ≤ result.to) × (result.to ≤ length buf.new) }
    ensures read_on { ReadOn buf.old input buf.new result }
{
    let kept = with_room(buf, input);
    let came = moves::read_some(console, &mut buf[kept.to..]);
    let stage = stage_after(came);
    Input {
        from: 0,
        to: kept.to + came.unwrap_or(0),
        stage,
        ..kept
    }
}
