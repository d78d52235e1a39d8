// Dense elimination that clears each pivot column above and below: its rules in specs/, their theorems in proofs/, no code.
#![tactic(auto)]
