// No code: the sums of the inverse transform with their products counted: see specs/.

#![tactic(auto)]
