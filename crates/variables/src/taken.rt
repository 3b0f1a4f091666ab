// Checks 4 and 17: the variables that a job may have, and their followers.
ghost use Rattle.std.specs.Prelude.{◌≡◌, ◌≤◌};
ghost use Rattle.variables.specs.Taken.{bounds_taken, step_taken, lower_bound_taken, variable_taken, variables_taken};
ghost use Rattle.variables.specs.Taken.{minus_taken, follower_taken, followers_taken};

use crate::quantities;
use crate::types::{Follower, VariableDef, VariableSet, VariableType};

fn bounds_taken(lo: f64, hi: f64) -> bool
    ensures { result ≡ bounds_taken lo hi }
{
    optics::is_within(lo) && optics::is_within(hi) && lo <= hi
}

fn step_taken(step: f64) -> bool
    ensures { result ≡ step_taken step }
{
    0.0 <= step && step <= 1e9
}

// The lower bound of a semi-diameter is above 0.
fn lower_bound_taken(kind: VariableType, lo: f64) -> bool
    ensures { result ≡ lower_bound_taken kind lo }
{
    match kind {
        VariableType::SemiDiameter(_) => 0.0 < lo,
        _ => true,
    }
}

#[tactic(auto, unfolding(crate::specs::Taken::variable_taken))]
pub fn variable_taken(v: VariableDef, surface_count: usize) -> bool
    ensures { result ≡ variable_taken surface_count v }
{
    quantities::surface_index(v.var_type) < surface_count
        && bounds_taken(v.min_value, v.max_value)
        && step_taken(v.step_size)
        && lower_bound_taken(v.var_type, v.min_value)
}

// Enabled or not.
pub fn variables_taken(v: VariableSet, surface_count: usize) -> bool
    requires { v.variable_count ≤ 8 }
    ensures { result ≡ variables_taken surface_count v }
{
    v.variables
        .iter()
        .take(v.variable_count)
        .all(|d| variable_taken(*d, surface_count))
}

// A semi-diameter or thickness has no follower with minus.
fn minus_taken(kind: VariableType) -> bool
    ensures { result ≡ minus_taken kind }
{
    matches!(kind, VariableType::Curvature(_) | VariableType::Conic(_))
}

pub fn follower_taken(kind: VariableType, follower: Follower, surface_count: usize) -> bool
    ensures { result ≡ follower_taken surface_count kind follower }
{
    match follower {
        Follower::None => true,
        Follower::Plus(i) => i < surface_count,
        Follower::Minus(i) => i < surface_count && minus_taken(kind),
    }
}

// Enabled or not.
pub fn followers_taken(v: VariableSet, surface_count: usize) -> bool
    requires { v.variable_count ≤ 8 }
    ensures { result ≡ followers_taken surface_count v }
{
    v.variables
        .iter()
        .take(v.variable_count)
        .all(|d| follower_taken(d.var_type, d.follower, surface_count))
}
