// The rules of sparse elimination: definitions in specs/, laws in proofs/, no code.
#![tactic(auto)]
