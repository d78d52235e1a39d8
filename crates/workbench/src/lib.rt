// The sums on the workbench: one table, one theorem, and what their calls tell of their sums; no code.
#![tactic(auto)]
