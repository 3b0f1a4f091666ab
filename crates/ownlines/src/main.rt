// Reads lines from standard input that keep a row of four floats (`R` and the floats) or show it, as it is (`W`), as a surface (`S`)
// or its first two as a ray (`Y`). Nothing is said of what it does: so what `answers` and `text` have for such a program is called.
// Stands on `text`, `streams` and `answers`; a program that only tests.
#![tactic(auto)]

ghost use Rattle.streams.specs.Output.{float_texts};

use answers::{Entry, Program};
use optics::{OpticalSurface, ParaxialRay};
use streams::console::Console;
use streams::output::Output;
use text::reader::{Reader, Wrong};

#[derive(Clone, Copy)]
struct Row {
    floats: [f64; 4],
}

impl Entry for Row {
    ghost texts = { λ row. float_texts row.floats };

    fn put(self, output: &mut Output) {
        output.put_floats(&self.floats);
    }
}

impl Row {
    fn surface(self) -> OpticalSurface {
        OpticalSurface {
            radius_mm: self.floats[0],
            conic_constant: self.floats[1],
            thickness_mm: self.floats[2],
            semi_diameter_mm: self.floats[3],
        }
    }

    fn ray(self) -> ParaxialRay {
        ParaxialRay {
            y: self.floats[0],
            u: self.floats[1],
        }
    }

    // The row as the line asks for it.
    fn show(self, output: &mut Output, reader: &mut Reader) -> Result<(), Wrong> {
        if reader.passes(b"S") {
            reader.end()?;
            answers::put_all(output, &[self.surface()]);
        } else if reader.passes(b"Y") {
            reader.end()?;
            answers::put_all(output, &[self.ray()]);
        } else {
            reader.tag(b"W")?;
            reader.end()?;
            answers::put_all(output, &[self]);
        }
        output.put(b"\n");
        Ok(())
    }
}

// The row last read: behind a float that is out of form it stays as it was.
#[derive(Clone, Copy)]
struct Kept {
    row: Row,
}

impl Program for Kept {
    fn answer(
        &mut self,
        output: &mut Output,
        reader: &mut Reader,
        _number: u64,
    ) -> Result<(), Wrong> {
        if reader.passes(b"R") {
            reader.floats(&mut self.row.floats)?;
            return reader.end();
        }
        self.row.show(output, reader)
    }
}

fn main(rt: HostRuntime) {
    let console = Console {
        input: rt.stdin(),
        output: rt.stdout(),
        errors: rt.stderr(),
    };
    let row = Row { floats: [0.0; 4] };
    answers::answer_all(&mut Kept { row }, console);
}
