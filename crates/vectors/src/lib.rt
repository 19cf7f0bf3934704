// Cases of an independent model of document 01, computed from the definitions of `format`, in proofs/.
// There is no code here.
#![tactic(auto)]
