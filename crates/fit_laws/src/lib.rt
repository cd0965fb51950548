// Theorems only: what a loss returns of 32-bit words and f32 values is of them again.

#![tactic(auto)]
