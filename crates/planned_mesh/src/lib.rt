// What a yes of the plan checker means for the meshes of the blocks. There is no code here: the theorems stand in proofs/.
#![tactic(auto)]
