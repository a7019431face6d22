// No function: what equal labels are stands in specs/, the theorems in proofs/; `alike` has the code.
#![tactic(auto)]
