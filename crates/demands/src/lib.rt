// Theorems alone: the demands of document 01 over what the exports promise, in proofs/. No code runs here.
#![tactic(auto)]
