// The values of a held job's enabled variables: read off surfaces, clamped, applied.
ghost use Rattle.std.specs.Prelude.{◌≡◌, ◌≤◌, length};
ghost use Rattle.variables.specs.Kinds.{value_of, apply_clamp, put_at, followed};
ghost use Rattle.variables.specs.Values.{extracted, clamped_values, stored_in, applied};
ghost use Rattle.held.specs.JobFrom.{standing};
ghost use Rattle.held.specs.JobOf.{variables_of};
ghost use Rattle.held.specs.Standing.{Behind};

use crate::flat::{copy, put_surface};
use crate::varied::VariedJob;
use variables::{Follower, VariableDef, VariableType};

// A variable's quantity as it stands in surfaces laid flat.
fn value_of(flat: &[f64], kind: VariableType) -> f64
    requires { 64 ≤ length flat.now }
    ensures { result ≡ value_of (standing flat.now) kind }
{
    let i = variables::surface_index(kind);
    if i < 16 {
        let s = optics::surface_at(flat, i);
        return variables::quantity(s, kind);
    }
    variables::quantity(variables::no_surface(), kind)
}

// The values of the enabled variables, and +0.0 after them.
pub fn extract_values(job: VariedJob, flat: &[f64]) -> [f64; 8]
    requires { 64 ≤ length flat.now }
    ensures { result ≡ extracted (variables_of job.entry.held) (standing flat.now) }
{
    let count = job.held.variable_count();
    let mut x = [0.0; 8];
    let mut q: usize = 0;
    for i in 0..count {
        let d = job.held.variable_at(i);
        if d.enabled {
            x[q] = value_of(flat, d.var_type);
            q += 1;
        }
    }
    x
}

// Each value clamped to its variable's bounds, a NaN let through; what stands after them is kept.
pub fn clamp_values(job: VariedJob, values: [f64; 8]) -> [f64; 8]
    ensures { result ≡ clamped_values (variables_of job.entry.held) values }
{
    let count = job.held.variable_count();
    let mut x = values;
    let mut q: usize = 0;
    for i in 0..count {
        let d = job.held.variable_at(i);
        if d.enabled {
            x[q] = floats::clamp(values[q], d.min_value, d.max_value);
            q += 1;
        }
    }
    x
}

// One value stored in surface i, one field of it; nothing past the last surface.
fn put_value(flat: &mut [f64], i: usize, kind: VariableType, x: f64)
    requires { 64 ≤ length flat.old }
    ensures fact_1 { standing flat.new ≡ put_at (standing flat.old) i kind x }
    ensures fact_2 { Behind flat.old flat.new }
{
    if i < 16 {
        let old = optics::surface_at(flat, i);
        put_surface(flat, i, variables::with_value(old, kind, x));
    }
}

// What the follower receives of a value.
fn follow(flat: &mut [f64], kind: VariableType, follower: Follower, x: f64)
    requires { 64 ≤ length flat.old }
    ensures fact_1 { standing flat.new ≡ followed (standing flat.old) kind follower x }
    ensures fact_2 { Behind flat.old flat.new }
{
    match follower {
        Follower::None => {}
        Follower::Plus(i) => put_value(flat, i, kind, x),
        Follower::Minus(i) => put_value(flat, i, kind, -x),
    }
}

// One value clamped and stored in its variable's surface, and straight after in its follower.
fn apply_variable(d: VariableDef, value: f64, flat: &mut [f64])
    requires { 64 ≤ length flat.old }
    ensures fact_1 { standing flat.new ≡ stored_in (standing flat.old) d (apply_clamp value d.min_value d.max_value) }
    ensures fact_2 { Behind flat.old flat.new }
{
    let x = variables::apply_clamp(value, d.min_value, d.max_value);
    put_value(flat, variables::surface_index(d.var_type), d.var_type, x);
    follow(flat, d.var_type, d.follower, x);
}

// The surfaces that stand in flat numbers with each value applied, in rising order of the variables.
pub fn apply_values(job: VariedJob, values: [f64; 8], flat: &mut [f64])
    requires { 64 ≤ length flat.old }
    ensures fact_1 { standing flat.new ≡ applied (variables_of job.entry.held) values (standing flat.old) }
    ensures fact_2 { Behind flat.old flat.new }
{
    let count = job.held.variable_count();
    let mut q: usize = 0;
    for i in 0..count {
        let d = job.held.variable_at(i);
        if d.enabled {
            apply_variable(d, values[q], flat);
            q += 1;
        }
    }
}

// The surfaces of flat numbers laid in others, with each value applied.
pub fn lay_applied(job: VariedJob, values: [f64; 8], surfaces: &[f64], flat: &mut [f64])
    requires fact_1 { 64 ≤ length surfaces.now }
    requires fact_2 { 64 ≤ length flat.old }
    ensures fact_1 { standing flat.new ≡ applied (variables_of job.entry.held) values (standing surfaces.now) }
    ensures fact_2 { Behind flat.old flat.new }
{
    copy(surfaces, flat);
    apply_values(job, values, flat);
}
