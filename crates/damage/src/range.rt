// Floats: what an entry may be, and values that it may not.
#[derive(Clone, Copy)]
pub(crate) enum Range {
    // A number or infinite.
    Any,
    Finite,
    // Within 1e9 of zero.
    Near,
    // Above zero up to 1e9.
    Size,
    // Above zero up to 10.
    Index,
    // From zero up to 1e9.
    Step,
    // From zero, and finite.
    Weight,
    // From zero up to 1e8.
    Damping,
    // From zero up to 1.
    Part,
}

impl Range {
    // NaN, a value past the greatest, one below the least, and -0.0 where zero is below it.
    pub(crate) fn values(self) -> [f64; 5] {
        let nan = f64::NAN;
        let inf = f64::INFINITY;
        let past = 1000000000.0000001;
        let under = -0.0000000000000001;
        match self {
            Range::Any => [nan, nan, nan, nan, nan],
            Range::Finite => [nan, inf, -inf, -inf, nan],
            Range::Near => [nan, past, -past, -past, nan],
            Range::Size => [nan, past, 0.0, -past, -0.0],
            Range::Index => [nan, 10.000000000000002, 0.0, -10.000000000000002, -0.0],
            Range::Step => [nan, past, under, -past, nan],
            Range::Weight => [nan, inf, under, -inf, nan],
            Range::Damping => [nan, 100000000.00000001, under, -100000000.00000001, nan],
            Range::Part => [nan, 1.0000000000000002, under, -1.0000000000000002, nan],
        }
    }
}
