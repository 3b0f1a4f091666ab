// Entries of one kind, put one after the other; each may go on with another console.
ghost use Rattle.std.specs.Prelude.{List, ℕ};
ghost use Rattle.answers.specs.Entries.{all_texts, surface_texts, ray_texts};
ghost use Rattle.answers.specs.Anywhere.{PutsAnywhere};

use crate::entries::ConsoleEntry;
use optics::{OpticalSurface, ParaxialRay};
use streams::output::Output;

// What an answer lists.
pub trait Entry: Copy {
    ghost texts: { Self → List (List ℕ) };

    fn put(self, output: &mut Output)
        ensures { PutsAnywhere output.old (texts self) output.new };
}

pub fn put_all<T: Entry>(output: &mut Output, entries: &[T])
    ensures { PutsAnywhere output.old (all_texts T.texts entries.now) output.new }
{
    output.clip();
    for entry in entries {
        (*entry).put(output);
    }
}

impl Entry for OpticalSurface {
    ghost texts = { surface_texts };

    fn put(self, output: &mut Output) {
        <OpticalSurface as ConsoleEntry>::put(self, output);
    }
}

impl Entry for ParaxialRay {
    ghost texts = { ray_texts };

    fn put(self, output: &mut Output) {
        <ParaxialRay as ConsoleEntry>::put(self, output);
    }
}
