// The lines of calls: each is one call, or turns of one place, and has a name of one letter.
ghost use Rattle.std.specs.Prelude.{◌≡◌};
ghost use Rattle.text.specs.Fields.{text_of};
ghost use Rattle.text.specs.Reader.{decimal_from, past_word};
ghost use Rattle.text.specs.Words.{word_from};
ghost use Rattle.answers.specs.Lines.{whole};
ghost use Rattle.callplay.specs.Lines.{alone_from, admission_from, turns_from, deal_from, named_from};

use jobs::JobRequest;
use text::reader::{Reader, Why, Wrong};

#[derive(Clone, Copy)]
pub(crate) enum Call {
    // The bench is emptied.
    Empty,
    Admit {
        place: usize,
        request: JobRequest,
    },
    // So many turns of a place, with so many numbers of scratch.
    Turn {
        place: usize,
        room: usize,
        turns: u64,
    },
    Release {
        place: usize,
    },
    // So many turns dealt, with so many numbers of scratch.
    Deal {
        turns: u16,
        room: usize,
    },
    Fetch {
        place: usize,
    },
    List,
}

impl Call {
    // A line with another name is out of form at its first word.
    #[tactic(auto, unfolding(crate::specs::Lines::lettered_from))]
    pub(crate) fn read(reader: &mut Reader) -> Result<Call, Wrong>
        ensures { let line = reader.old.line.now in result ≡ named_from (text_of line (word_from line reader.old.at)) line (past_word line reader.old.at) }
    {
        let [letter] = reader.word() else {
            return Err(Wrong::unknown_name());
        };
        match letter {
            b'Z' => alone(reader, Call::Empty),
            b'A' => admission(reader),
            b'T' => turns(reader),
            b'D' => Ok(Call::Release {
                place: a_place(reader)?,
            }),
            b'N' => turns_to_deal(reader),
            b'F' => Ok(Call::Fetch {
                place: a_place(reader)?,
            }),
            b'L' => alone(reader, Call::List),
            _ => Err(Wrong::unknown_name()),
        }
    }
}

// A name alone.
fn alone(reader: &Reader, call: Call) -> Result<Call, Wrong>
    ensures { result ≡ alone_from call reader.now.line.now reader.now.at }
{
    reader.end()?;
    Ok(call)
}

// place
fn a_place(reader: &mut Reader) -> Result<usize, Wrong>
    ensures { result ≡ whole reader.old.line.now (decimal_from reader.old.line.now reader.old.at) }
{
    let place = reader.decimal()? as usize;
    reader.end()?;
    Ok(place)
}

// place J id kind ..
fn admission(reader: &mut Reader) -> Result<Call, Wrong>
    ensures { result ≡ admission_from reader.old.line.now reader.old.at }
{
    let place = reader.decimal()? as usize;
    let kind = joblines::read_kind(reader, 3)?;
    let job = joblines::read_job(reader)?;
    let request = joblines::read_request(reader, kind, job)?;
    reader.end()?;
    Ok(Call::Admit { place, request })
}

// place length turns
fn turns(reader: &mut Reader) -> Result<Call, Wrong>
    ensures { result ≡ turns_from reader.old.line.now reader.old.at }
{
    let place = reader.decimal()? as usize;
    let room = reader.decimal()? as usize;
    let turns = reader.decimal()?;
    reader.end()?;
    Ok(Call::Turn { place, room, turns })
}

// turns length
fn turns_to_deal(reader: &mut Reader) -> Result<Call, Wrong>
    ensures { result ≡ deal_from reader.old.line.now reader.old.at }
{
    let turns = reader.within(0, 65535, Why::Range)?;
    let room = reader.decimal()? as usize;
    reader.end()?;
    Ok(Call::Deal {
        turns: turns as u16,
        room,
    })
}
