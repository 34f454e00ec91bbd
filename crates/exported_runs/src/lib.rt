// Theorems over the exported calls. No code.
#![tactic(auto)]
