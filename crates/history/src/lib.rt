// The layout of a decoder's history: of each channel 2,048 samples, oldest first, and then 120 of overlap.
// The definitions and laws of it are in specs/ and proofs/.

#![tactic(auto)]

// The samples of a channel that a loss may change: its newest 1,024.
pub const HALF: usize = 1024;

// A channel's samples without its overlap.
pub const SAMPLES: usize = 2 * HALF;

pub use custom_mode::standard::OVERLAP;

// What a loss may change of a channel: its newest 1,024 samples and its overlap.
pub const TAIL: usize = HALF + OVERLAP;

// The mode's, under the name that the steps of a loss know, and an edit of take_in.
pub const LONGEST_FRAME: usize = custom_mode::standard::FRAME_MOST;

// What is extrapolated beyond a frame: twice the overlap.
pub const EXTRA: usize = 2 * OVERLAP;

// A channel with its overlap; channel 1 starts here.
pub const CHANNEL: usize = SAMPLES + OVERLAP;

// Where channel 1's newest samples start, and where they end.
pub const SECOND_HALF: usize = CHANNEL + HALF;

pub const SECOND_END: usize = CHANNEL + SAMPLES;

// Both channels.
pub const WHOLE: usize = 2 * CHANNEL;

// The shortest lag of a pitch that is searched for in a channel, and the longest.
pub const LAG_LEAST: usize = 102;

pub const LAG_MOST: usize = 720;
