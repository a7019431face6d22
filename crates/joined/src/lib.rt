// No function: what the joined list of definitions is stands in specs/, the theorems in proofs/.
#![tactic(auto)]
