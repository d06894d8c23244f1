// What the filler of fixtures promises to the mesher, which then reads the grid (document 02, request 11). There is no code here: the theorems stand in
// proofs/.
#![tactic(auto)]
