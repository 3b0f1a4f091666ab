// The Jacobian of a damped run, by central differences: the surfaces on either side of a parameter, and the column out of
// their residuals.
ghost use Rattle.std.specs.Prelude.{◌≡◌, ℕ, ◌≤◌, ◌<◌, Float, length, get_or, set};
ghost use Rattle.std.specs.Float.{nan};
ghost use Rattle.variables.specs.Active.{active_at};
ghost use Rattle.normal.specs.Layout.{most_variables};
ghost use Rattle.variables.specs.Values.{applied};
ghost use Rattle.runs.specs.DampedRun.{denom, with_differences};
ghost use Rattle.runs.specs.DampedRow.{current_of};
ghost use Rattle.dls.specs.DampedSteps.{optimizer, moved_up, moved_down, with_jacobian};
ghost use Rattle.held.specs.JobFrom.{standing};
ghost use Rattle.held.specs.RowFrom.{damped_from};
ghost use Rattle.held.specs.Standing.{Behind};
ghost use Rattle.held.specs.JobOf.{variables_of, operand_count_of};

use held::{CountedJob, Head, HeldRun, VariedJob, lay_applied};
use jobs::DlsConfig;
use normal::{delta, denominator, jacobian_column, minus_value, plus_value};
use variables::VariableDef;

// A variable's value moved up, within its bounds. Like moved_down: what either has of its own is the function of dls.rs that it calls.
// dls.rs: `p_plus[param_idx]`
pub(crate) fn moved_up(x0: f64, relative: f64, variable: VariableDef) -> f64
    ensures { result ≡ moved_up x0 relative variable }
{
    let by = delta(x0, relative, variable.step_size);
    plus_value(x0, by, variable.min_value, variable.max_value)
}

// A variable's value moved down, within its bounds.
// dls.rs: `p_minus[param_idx]`
pub(crate) fn moved_down(x0: f64, relative: f64, variable: VariableDef) -> f64
    ensures { result ≡ moved_down x0 relative variable }
{
    let by = delta(x0, relative, variable.step_size);
    minus_value(x0, by, variable.min_value, variable.max_value)
}

// The surfaces with the parameter of this column moved to one side, all values applied, laid where their merit is worked out.
pub(crate) fn lay_moved<F: Fn(f64, f64, VariableDef) -> f64>(
    side: F,
    h: Head,
    config: DlsConfig,
    job: VariedJob,
    surfaces: &[f64; 64],
    params: &[f64; 8],
    flat: &mut [f64],
)
    requires fact_1 { h.column < most_variables }
    requires fact_2 { 64 ≤ length flat.old }
    requires fact_3 { F.IsAlwaysCallable side }
    ensures fact_1 { let v = variables_of job.entry.held in
        (x : Float) × F.post side (get_or params.now h.column nan) config.finite_difference_relative_step (active_at v h.column) x
        × (standing flat.new ≡ applied v (set params.now h.column x) (standing surfaces.now)) }
    ensures fact_2 { Behind flat.old flat.new }
{
    let q = h.column as usize;
    let mut moved = *params;
    moved[q] = side(
        params[q],
        config.finite_difference_relative_step,
        job.held.active_at(q),
    );
    lay_applied(job, moved, surfaces, flat);
}

// What lies between the parameter moved up and moved down.
// dls.rs: `denom`
fn between(h: Head, config: DlsConfig, job: VariedJob, run: &HeldRun) -> f64
    requires { h.column < most_variables }
    ensures { (m : ℕ) →
        let o = optimizer config (variables_of job.entry.held) m in
        result ≡ denom o (current_of (damped_from h run.now)) h.column }
{
    let q = h.column as usize;
    let variable = job.held.active_at(q);
    let x0 = run.params[q];
    let relative = config.finite_difference_relative_step;
    let plus = moved_up(x0, relative, variable);
    let minus = moved_down(x0, relative, variable);
    denominator(x0, plus, minus)
}

// This column of the Jacobian written, out of the residuals on either side.
// dls.rs: `j_mat[(i, param_idx)] = d_res`
pub(crate) fn with_differences(
    h: Head,
    config: DlsConfig,
    job: CountedJob,
    minus: [f64; 12],
    run: &mut HeldRun,
)
    requires { h.column < most_variables }
    ensures { let o = optimizer config (variables_of job.entry.held) (operand_count_of job.entry.held) in
        let before = damped_from h run.old in
        damped_from h run.new ≡ with_jacobian before (with_differences o (current_of before) h.column run.old.jacobian run.old.plus_residuals minus) }
{
    let d = between(h, config, VariedJob { held: job.held }, run);
    let q = h.column as usize;
    let m = job.held.operand_count();
    jacobian_column(&mut run.jacobian, q, &run.plus_residuals, &minus, m, d);
}
