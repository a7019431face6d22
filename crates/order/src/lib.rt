// No function: the order stands in specs/, its laws in proofs/; `ranking` has the code.
#![tactic(auto)]
