// No function: what the answers of the entries have in common is in specs/.
#![tactic(auto)]
