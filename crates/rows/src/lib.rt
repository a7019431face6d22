// No function: what a table of rows holds is in specs/, the theorems in proofs/.
#![tactic(auto)]
