// Runs of calls: definitions and theorems only.

#![tactic(auto)]
