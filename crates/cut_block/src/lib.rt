// A block that was cut: what its table's reader says, what of its columns is there, and the block that is saved of it. Definitions and laws; no functions.
#![tactic(auto)]
