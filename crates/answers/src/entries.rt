// Entries of one kind, put one after the other.
ghost use Rattle.std.specs.Prelude.{List, ℕ};
ghost use Rattle.streams.specs.Output.{Puts};
ghost use Rattle.answers.specs.Entries.{all_texts, surface_texts, ray_texts};

use optics::{OpticalSurface, ParaxialRay};
use streams::output::Output;

// What an answer lists.
pub trait ConsoleEntry: Copy {
    ghost texts: { Self → List (List ℕ) };

    fn put(self, output: &mut Output)
        ensures { Puts output.old (texts self) output.new };
}

pub fn put_all_there<T: ConsoleEntry>(output: &mut Output, entries: &[T])
    ensures { Puts output.old (all_texts T.texts entries.now) output.new }
{
    output.clip();
    for entry in entries {
        (*entry).put(output);
    }
}

// radius conic thickness semi
impl ConsoleEntry for OpticalSurface {
    ghost texts = { surface_texts };

    fn put(self, output: &mut Output) {
        let row = [
            self.radius_mm,
            self.conic_constant,
            self.thickness_mm,
            self.semi_diameter_mm,
        ];
        output.put_floats(&row);
    }
}

// height slope
impl ConsoleEntry for ParaxialRay {
    ghost texts = { ray_texts };

    fn put(self, output: &mut Output) {
        let row = [self.y, self.u];
        output.put_floats(&row);
    }
}
