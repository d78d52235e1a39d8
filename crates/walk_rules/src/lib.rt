// Rules for walking a function by hand that reads a lent slice of structs: no code.
#![tactic(auto)]
