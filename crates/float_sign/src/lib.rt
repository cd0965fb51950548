// No code: a float with its sign turned, and what that does to products, sums and the step to f32: see specs/ and proofs/.

#![tactic(auto)]
