// Document 02, request 1: "All output joined, with vertex numbers running on, equals that of an accepted whole call". There is no code here: the theorems
// stand in proofs/ and follow from the contracts of `State::offer` of layers and of the whole call.
#![tactic(auto)]
