// Theorems about receivers, in proofs/; there is no code here.
#![tactic(auto)]
