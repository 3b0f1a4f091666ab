// The variables of a job. Names are those of variables.rs; its `id` is dropped.

// What is varied, with the number of its surface.
#[derive(Clone, Copy)]
pub enum VariableType {
    Curvature(usize),
    Thickness(usize),
    Conic(usize),
    SemiDiameter(usize),
}

// Another surface that receives the variable's value straight after the variable's own, as it is or negated.
#[derive(Clone, Copy)]
pub enum Follower {
    None,
    Plus(usize),
    Minus(usize),
}

// A variable: its bounds and the least step of the finite differences. A disabled one is never read or applied.
#[derive(Clone, Copy)]
pub struct VariableDef {
    pub var_type: VariableType,
    pub min_value: f64,
    pub max_value: f64,
    pub step_size: f64,
    pub enabled: bool,
    pub follower: Follower,
}

// The first `variable_count` of them are in use.
#[derive(Clone, Copy)]
pub struct VariableSet {
    pub variables: [VariableDef; 8],
    pub variable_count: usize,
}
