// Theorems over the contracts of the mesher and of the volume together, in proofs/: the volume of a mesh without a hole does not depend on where
// it stands, nor on how the box was cut. No code.
#![tactic(auto)]
