// Theorems about containers, in proofs/; there is no code here.
#![tactic(auto)]
