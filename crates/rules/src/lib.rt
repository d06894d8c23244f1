// Document 01 as definitions, and the laws about them that need no code. There is no code here: the definitions
// stand in specs/, in the document's own order, and the laws in proofs/.
#![tactic(auto)]
