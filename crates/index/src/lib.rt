// No function: what an index of definitions holds stands in specs/, that it finds what the slow lookup finds in proofs/; `indexing` builds one,
// `finding` looks labels up in it.
#![tactic(auto)]
