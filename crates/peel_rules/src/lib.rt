// The rules of peeling: definitions in specs/, laws in proofs/, no code.
#![tactic(auto)]
