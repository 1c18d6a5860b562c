// Lists: what the contracts and the proofs of the other crates cite. There is no code.
#![tactic(auto)]
