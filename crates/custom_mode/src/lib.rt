// The standard mode at 48 kHz, and the output rates.

#![tactic(auto)]

pub mod rate;
pub mod standard;
