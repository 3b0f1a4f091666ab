// Definitions and laws on lists that the layers share: see specs/.
// Stands on nothing; laws alone, cited by all above it.

#![tactic(auto)]
