// Theorems about packets, in proofs/; there is no code here.
#![tactic(auto)]
