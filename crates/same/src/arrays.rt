// Lists, entry by entry.
ghost use Rattle.std.specs.Prelude.{◌≡◌, refl, Bool, true, eqb};
ghost use Rattle.std.proofs.Common.{eq-eqb};
ghost use Rattle.std.specs.Float.{nan};
ghost use Rattle.alike.specs.Same.{same_float, same_list};
ghost use Rattle.alike.proofs.FloatItself.{float};

use text::numbers::bits_of;

// What is compared bit by bit.
pub trait SameBits {
    // Whether two are alike, and what stands for an entry where a list has none.
    ghost alike: { Self → Self → Bool };

    ghost none: { Self };

    fn is_same(&self, other: &Self) -> bool
        ensures { result ≡ alike self.now other.now };

    // What is compared with itself is the same.
    ghost itself: { (x : Self) → alike x x ≡ true };
}

impl SameBits for u64 {
    ghost alike = { eqb };

    ghost none = { 0 };

    fn is_same(&self, other: &u64) -> bool {
        *self == *other
    }

    ghost itself = { λ x. eq-eqb x x refl };
}

// A derive's `==` would take -0.0 for 0.0, and no NaN for another.
impl SameBits for f64 {
    ghost alike = { same_float };

    ghost none = { nan };

    fn is_same(&self, other: &f64) -> bool {
        bits_of(*self) == bits_of(*other)
    }

    ghost itself = { float };
}

pub fn are_same<T: SameBits>(a: &[T], b: &[T]) -> bool
    ensures { result ≡ same_list T.alike T.none a.now b.now }
{
    if a.len() != b.len() {
        return false;
    }
    for (x, y) in a.iter().zip(b) {
        if !x.is_same(y) {
            return false;
        }
    }
    true
}
