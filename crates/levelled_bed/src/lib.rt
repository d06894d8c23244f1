// What the levels of the bed are, for every answered call. There is no code here: the theorems stand in proofs/ and follow from the contracts of `levels` and
// `levels_layer`, of the mesh call, and of the functions for C.
#![tactic(auto)]
