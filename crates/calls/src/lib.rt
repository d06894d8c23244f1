// One call with numbers of each exported function, by the places of its arguments. There is no code here: the calls and what each comes to stand in proofs/.
#![tactic(auto)]
