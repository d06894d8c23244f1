// Theorems over the mesher and the weighing of a mesh of any size together, in proofs/. Above everything, so that no edit of code pays for them.
#![tactic(auto)]
