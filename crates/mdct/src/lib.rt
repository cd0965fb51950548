// The inverse transform.

#![tactic(auto)]

pub mod imdct;
