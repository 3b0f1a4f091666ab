// The enabled variables of a set.
ghost use Rattle.std.specs.Prelude.{◌≡◌, ◌≤◌};
ghost use Rattle.variables.specs.Active.{num_active};

use crate::types::VariableSet;

// How many are enabled.
pub fn num_active(v: VariableSet) -> usize
    requires { v.variable_count ≤ 8 }
    ensures { result ≡ num_active v }
{
    v.variables
        .iter()
        .take(v.variable_count)
        .filter(|d| d.enabled)
        .count()
}
