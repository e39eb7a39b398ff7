// Runs of values written into lent memory, one after the other: theory only.
#![tactic(auto)]
