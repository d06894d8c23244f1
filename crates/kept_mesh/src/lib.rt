// What the mesher and the mesh file promise together. There is no code here: the theorems stand in proofs/.
#![tactic(auto)]
