// Cases of the definitions of `format` that take long to compute, in proofs/. There is no code here.
#![tactic(auto)]
