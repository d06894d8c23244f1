// What closing a bed is for. There is no code here: the theorems stand in proofs/ and follow from the contracts of `close`, `close_layer`, `is_enclosed` and
// `surface_nets`, and from those of the functions for C.
#![tactic(auto)]
