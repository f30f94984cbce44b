// Theorems about public functions, in proofs/; there is no code here.
#![tactic(auto)]
