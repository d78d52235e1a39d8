// Why sparse and dense agree: definitions in specs/, laws in proofs/, no code.
#![tactic(auto)]
