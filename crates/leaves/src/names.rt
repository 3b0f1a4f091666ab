// The names of lines.
ghost use Rattle.std.specs.Prelude.{◌≡◌};
ghost use Rattle.std.specs.Str.{bytes_eq};
ghost use Rattle.leaves.specs.Names.{name_of};

use text::reader::Wrong;

#[derive(Clone, Copy)]
pub(crate) enum Name {
    Leaf(Leaf),
    Solve,
    Normal,
}

// Functions of numbers.
#[derive(Clone, Copy)]
pub(crate) enum Leaf {
    Exp,
    Sqrt,
    Abs,
    Draw,
    Jump,
    Uniform,
    Clamp,
}

fn is_same(word: &[u8], name: &[u8]) -> bool
    ensures { result ≡ bytes_eq word.now name.now }
{
    word == name
}

impl Name {
    // A line with another name is out of form at its first word. Tests and no `match`: of the bytes of a name that a pattern spells
    // no proof knows more than how many they are.
    #[tactic(auto, unfolding(crate::specs::Names::name_of))]
    pub(crate) fn of(word: &[u8]) -> Result<Name, Wrong>
        ensures { result ≡ name_of word.now }
    {
        if is_same(word, b"E") {
            Ok(Name::Leaf(Leaf::Exp))
        } else if is_same(word, b"SQRT") {
            Ok(Name::Leaf(Leaf::Sqrt))
        } else if is_same(word, b"ABS") {
            Ok(Name::Leaf(Leaf::Abs))
        } else if is_same(word, b"DRAW") {
            Ok(Name::Leaf(Leaf::Draw))
        } else if is_same(word, b"JUMP") {
            Ok(Name::Leaf(Leaf::Jump))
        } else if is_same(word, b"UNIFORM") {
            Ok(Name::Leaf(Leaf::Uniform))
        } else if is_same(word, b"CLAMP") {
            Ok(Name::Leaf(Leaf::Clamp))
        } else if is_same(word, b"SOLVE") {
            Ok(Name::Solve)
        } else if is_same(word, b"NORMAL") {
            Ok(Name::Normal)
        } else {
            Err(Wrong::unknown_name())
        }
    }
}
