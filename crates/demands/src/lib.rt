// No code: the user's three demands as theorems over any calls.
#![tactic(auto)]
