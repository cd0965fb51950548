// No code: how near each float operation comes to its exact result: see proofs/.

#![tactic(auto)]
