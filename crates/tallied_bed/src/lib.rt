// Theorems over the contracts of the count, of the mesher, of the test of request 8 and of the weighing, in proofs/: the volume of a closed bed lies between two
// numbers that the three counts make, and layers counted one after the other count the whole. No code.
#![tactic(auto)]
