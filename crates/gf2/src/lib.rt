// Linear algebra over two elements: definitions in specs/, laws in proofs/, no code.
#![tactic(auto)]
