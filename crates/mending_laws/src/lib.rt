// Theorems about mending, in proofs/; there is no code here.
#![tactic(auto)]
