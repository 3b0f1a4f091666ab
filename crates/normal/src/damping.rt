// The damping of the normal equations.
ghost use Rattle.std.specs.Prelude.{◌≡◌};
ghost use Rattle.normal.specs.Damping.{raised_of, eased_of, damped_diagonal};

use floats::{abs, max, min};

// A small value that is raised or eased.
#[derive(Clone, Copy)]
pub struct Damping {
    pub value: f64,
}

impl Damping {
    // After an attempt that was not accepted.
    // dls.rs: "increase damping"
    pub fn raise(self) -> Damping
        ensures { result.value ≡ raised_of self.value }
    {
        Damping {
            value: min(self.value * 5.0, 1e8),
        }
    }

    // After one that was accepted.
    // dls.rs: "Reduce damping"
    pub fn ease(self) -> Damping
        ensures { result.value ≡ eased_of self.value }
    {
        Damping {
            value: max(self.value / 3.0, 1e-7),
        }
    }
}

// An entry of the diagonal, damped.
// dls.rs: `a_mat[(i, i)] += damping * diag_val`
pub(crate) fn damped_diagonal(damping: f64, d: f64) -> f64
    ensures { result ≡ damped_diagonal damping d }
{
    d + damping * max(abs(d), 1e-6)
}
