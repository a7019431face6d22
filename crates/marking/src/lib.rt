// No function: the marking's conditions, their reading and the theorems are in specs/ and proofs/.
#![tactic(auto)]
