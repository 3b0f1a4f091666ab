// When rows as they are held, benches and results are alike bit for bit, every NaN as one: definitions, and laws that nothing is left out.
// Stands on `bench` and `text`; `same` has the code.

#![tactic(auto)]
