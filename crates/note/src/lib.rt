// No function: the markings, span rows and open brackets of a whole note, their reading and the theorems are in specs/ and proofs/.
#![tactic(auto)]
