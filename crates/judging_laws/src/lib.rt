// Theorems about judging, in proofs/; there is no code here.
#![tactic(auto)]
