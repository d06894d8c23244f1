// Laws of rounding that the kit's `lib.Ieee` lacks: the order and the error of one rounding, for values that may be zero. There is no code here:
// the predicates stand in specs/, the laws in proofs/.
#![tactic(auto)]
