// The known values of document 01 that are proved: one table under one lemma, in specs/.
// Stands on `bench`; nothing stands on it.

#![tactic(auto)]
