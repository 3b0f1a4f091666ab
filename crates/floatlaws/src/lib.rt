// Laws of floats for callers, in specs/: the order, rounded operations, the functions of `floats`; and that their square root is the nearest `f64`.
// Stands on `floats`; laws alone, cited by proofs from `optics` up.

#![tactic(auto)]
