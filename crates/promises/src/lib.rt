// What the public contracts promise together. There is no code here: the theorems stand in proofs/.
#![tactic(auto)]
