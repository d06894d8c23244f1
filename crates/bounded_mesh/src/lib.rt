// A theorem over the contract of the mesher, in proofs/: the volume of a mesh without a hole lies between two numbers that are counted from the
// distances alone. No code.
#![tactic(auto)]
