// A held job whose counts were checked. A row may hold any count, so a held job promises none: who has checked them says so here, once for all that follows.
ghost use Rattle.std.specs.Prelude.{◌≤◌};
ghost use Rattle.held.specs.JobFrom.{variable_count_from, operand_count_from};

use crate::types::LentJob;

// Its variables are eight at most.
#[derive(Clone, Copy)]
pub struct VariedJob<'a> {
    pub held: LentJob<'a>,
    pub ghost varied: { variable_count_from held.counts.now ≤ 8 },
}

// And its operands are twelve at most.
#[derive(Clone, Copy)]
pub struct CountedJob<'a> {
    pub held: LentJob<'a>,
    pub ghost varied: { variable_count_from held.counts.now ≤ 8 },
    pub ghost counted: { operand_count_from held.counts.now ≤ 12 },
}
