// A record read back: theorems alone, in specs/.

#![tactic(auto)]
