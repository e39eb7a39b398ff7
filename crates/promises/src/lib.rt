// Theory only: what the calls promise together is in specs/, the proofs of it in proofs/.
#![tactic(auto)]
