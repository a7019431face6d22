// No function: the page of a note, its reading from the rows and the theorems are in specs/ and proofs/.
#![tactic(auto)]
