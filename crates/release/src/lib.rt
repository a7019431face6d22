// No function: what the release setting changes and what it leaves as it is stands in specs/, the theorems in proofs/.
#![tactic(auto)]
