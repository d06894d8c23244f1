// Document 02, request 8, for what the calls write. There is no code here: the theorems stand in proofs/ and follow from the contracts of
// `surface_nets` and `is_enclosed`, and from those of the two functions for C.
#![tactic(auto)]
