// The general laws of the definitions of `format`, which all proofs above cite: proofs/. There is no code here.
#![tactic(auto)]
