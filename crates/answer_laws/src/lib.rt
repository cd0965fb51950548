// Theorems only: what the program writes for a whole input.

#![tactic(auto)]
