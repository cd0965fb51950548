// Theorems only: nothing of the forward comb filter shows.

#![tactic(auto)]
