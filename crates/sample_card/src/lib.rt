// No code: specs/Image.antt is one card, and proofs/Theorems.antt what the definitions compute of it.

#![tactic(auto)]
