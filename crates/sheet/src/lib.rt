// No function: what a note says alone, and what a sheet beside it leaves as it is, stands in specs/, the theorems in proofs/.
#![tactic(auto)]
