// Total helpers over the bits of floats and 32-bit words: what Rust has as methods of its numbers.

#![tactic(auto)]

pub mod formats;
pub mod words;
