// A theorem over the contracts of closing, meshing and weighing together, in proofs/: a full tank with a far wall weighs exactly the cells between its
// outermost points. No code.
#![tactic(auto)]
