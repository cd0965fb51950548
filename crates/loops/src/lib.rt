// What counting loops compute, as definitions and laws that every other crate's proofs cite: see specs/.

#![tactic(auto)]
