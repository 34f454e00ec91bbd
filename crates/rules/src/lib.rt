// Lemma sets and general laws that proofs cite, and the rows of digits by which states are packed. No code.
#![tactic(auto)]
