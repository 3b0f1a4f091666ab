// The lines on small matrices: a system solved, and the normal equations of a Jacobian.
ghost use Rattle.std.specs.Prelude.{◌≡◌, ◌+◌, ◌*◌, ◌<◌, ◌≤◌, [], length, OnOk, OnErr};
ghost use Rattle.normal.specs.Layout.{scratch_length, most_operands, most_variables};
ghost use Rattle.text.specs.Reader.{Reads, past_floats};
ghost use Rattle.leaves.specs.Lines.{solve_rest, normal_rest, solve_choice, normal_choice, PutsRow, Answers, line_texts};
ghost use Rattle.leaves.specs.Replies.{IsSolution, IsEquations};

use crate::pieces;
use normal::{GRADIENT, PRODUCT, STEP, place, system_place};
use streams::output::Output;
use text::reader::{Reader, Why, Wrong};

// So many numbers of a row, from a place on.
fn read_part(reader: &mut Reader, row: &mut [f64], from: usize, count: usize) -> Result<(), Wrong>
    requires { from + count ≤ length row.old }
    ensures { Reads (past_floats count) reader.old result reader.new }
{
    reader.floats_or_zeros(&mut row[from..from + count])
}

// A system of p unknowns, row after row, then its right side.
fn read_system(reader: &mut Reader, scratch: &mut [f64], p: usize) -> Result<(), Wrong>
    requires fact_1 { scratch_length ≤ length scratch.old }
    requires fact_2 { p ≤ most_variables }
    ensures { Reads (past_floats (p * p + p)) reader.old result reader.new }
{
    for i in 0..p {
        read_part(reader, scratch, system_place(i, 0), p)?;
    }
    read_right_side(reader, scratch, p)
}

fn read_right_side(reader: &mut Reader, scratch: &mut [f64], p: usize) -> Result<(), Wrong>
    requires fact_1 { scratch_length ≤ length scratch.old }
    requires fact_2 { p ≤ most_variables }
    ensures { Reads (past_floats p) reader.old result reader.new }
{
    for i in 0..p {
        scratch[system_place(i, p)] = reader.float()?;
    }
    Ok(())
}

// SOLVE p {entries by rows} {right side}: the solution, or `none`.
pub(crate) fn solve(output: &mut Output, reader: &mut Reader) -> Result<(), Wrong>
    ensures value { result ≡ solve_rest reader.old.line.now reader.old.at }
    ensures ok { OnOk result (Answers (line_texts reader.old.line.now) (solve_choice reader.old.line.now reader.old.at) output.old output.new) }
    ensures err { OnErr result (output.new ≡ output.old) }
{
    let p = reader.within(1, 8, Why::Range)? as usize;
    let mut scratch = [0.0; 128];
    read_system(reader, &mut scratch, p)?;
    reader.end()?;
    pieces::put_line(output, reader.line);
    put_solved(output, &mut scratch, p);
    Ok(())
}

// The solution of the system that stands in scratch.
fn put_solved(output: &mut Output, scratch: &mut [f64], p: usize)
    requires fact_1 { scratch_length ≤ length scratch.old }
    requires fact_2 { p ≤ most_variables }
    ensures { Answers [] (IsSolution p) output.old output.new }
{
    if !normal::solve(scratch, p) {
        output.put(b" none\n");
        return;
    }
    output.put_floats(&scratch[STEP..STEP + p]);
    pieces::end_line(output);
}

// The Jacobian of m operands, a column for each of p variables.
fn read_columns(reader: &mut Reader, jacobian: &mut [f64], m: usize, p: usize) -> Result<(), Wrong>
    requires fact_1 { 96 ≤ length jacobian.old }
    requires fact_2 { m ≤ most_operands }
    requires fact_3 { p ≤ most_variables }
    ensures { Reads (past_floats (p * m)) reader.old result reader.new }
{
    for q in 0..p {
        read_part(reader, jacobian, q * 12, m)?;
    }
    Ok(())
}

// NORMAL m p {entries by columns} {residuals}: J^T J by rows, J^T r, and its norm.
pub(crate) fn normal(output: &mut Output, reader: &mut Reader) -> Result<(), Wrong>
    ensures value { result ≡ normal_rest reader.old.line.now reader.old.at }
    ensures ok { OnOk result (Answers (line_texts reader.old.line.now) (normal_choice reader.old.line.now reader.old.at) output.old output.new) }
    ensures err { OnErr result (output.new ≡ output.old) }
{
    let m = reader.within(1, 12, Why::Range)? as usize;
    let p = reader.within(1, 8, Why::Range)? as usize;
    let mut jacobian = [0.0; 96];
    let mut residuals = [0.0; 12];
    read_columns(reader, &mut jacobian, m, p)?;
    read_part(reader, &mut residuals, 0, m)?;
    reader.end()?;
    let mut scratch = [0.0; 128];
    let norm = normal::normal_equations(&mut scratch, &jacobian, &residuals, m, p);
    pieces::put_line(output, reader.line);
    put_equations(output, &scratch, p, norm);
    Ok(())
}

fn put_equations(output: &mut Output, scratch: &[f64], p: usize, norm: f64)
    requires fact_1 { scratch_length ≤ length scratch.now }
    requires fact_2 { p ≤ most_variables }
    ensures { Answers [] (IsEquations p) output.old output.new }
{
    put_product(output, scratch, p);
    output.put_floats(&scratch[GRADIENT..GRADIENT + p]);
    output.put_floats(&[norm]);
    pieces::end_line(output);
}

// Entry by entry: scratch has the lower triangle alone.
fn put_product(output: &mut Output, scratch: &[f64], p: usize)
    requires fact_1 { scratch_length ≤ length scratch.now }
    requires fact_2 { p ≤ most_variables }
    ensures { PutsRow (p * p) output.old output.new }
{
    output.clip();
    for i in 0..p {
        put_product_row(output, scratch, p, i);
    }
}

fn put_product_row(output: &mut Output, scratch: &[f64], p: usize, i: usize)
    requires fact_1 { scratch_length ≤ length scratch.now }
    requires fact_2 { p ≤ most_variables }
    requires fact_3 { i < p }
    ensures { PutsRow p output.old output.new }
{
    output.clip();
    for j in 0..p {
        let entry = scratch[PRODUCT + place(i, j)];
        output.put_floats(&[entry]);
    }
}
