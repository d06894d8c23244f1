// The theorems over the contracts, applied to calls with numbers. There is no code here: the calls and what follows of them stand in proofs/.
#![tactic(auto)]
