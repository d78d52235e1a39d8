// Lazy Gaussian elimination over two elements.
#![tactic(auto)]
