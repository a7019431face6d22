// No function: what a character folds to stands in specs/, the theorems in proofs/.
#![tactic(auto)]
