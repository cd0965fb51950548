// The standard mode's numbers and tables. An accessor takes every index, as no public function asks anything, and says what it
// answers past its table's end.
ghost use Rattle.std.specs.Prelude.{◌≡◌};
ghost use Rattle.custom_mode.specs.Mode.{edge, mean, preemph};

// The samples of the shortest block.
pub const SHORT_BLOCK: usize = 120;

// A frame has 2 ^ lm such blocks; the greatest lm.
pub const LM_MOST: usize = 3;

// The shortest frame, of one block, and the longest, of 2 ^ LM_MOST.
pub const FRAME_LEAST: usize = SHORT_BLOCK;

pub const FRAME_MOST: usize = SHORT_BLOCK << LM_MOST;

// The samples in which a block and the next one overlap.
pub const OVERLAP: usize = 120;

pub const BANDS: usize = 21;

// The energies of a channel: more than it has bands.
pub const MAX_BANDS: usize = 25;

// The channels of a stream at most. Elsewhere 2 stands by number: there it is the one channel and the other.
pub const CHANNELS: usize = 2;

// The energies of both channels, in one list: band i of channel c at MAX_BANDS * c + i.
pub const ENERGIES: usize = CHANNELS * MAX_BANDS;

// Where the last band ends, in bins of the shortest block.
pub const LAST_EDGE: usize = 100;

const EDGES: [usize; BANDS + 1] = [
    0, 1, 2, 3, 4, 5, 6, 7, 8, 10, 12, 14, 16, 20, 24, 28, 34, 40, 48, 60, 78, LAST_EDGE,
];

const E_MEANS: [f32; MAX_BANDS] = [
    6.4375, 6.25, 5.75, 5.3125, 5.0625, 4.8125, 4.5, 4.375, 4.875, 4.6875, 4.5625, 4.4375, 4.875,
    4.625, 4.3125, 4.5, 4.375, 4.625, 4.75, 4.4375, 3.75, 3.75, 3.75, 3.75, 3.75,
];

// The edge numbered i, in bins of the shortest block; an i past the last counts as the last. This and `mean_energy` are one chain of
// the library's calls each: a function of any table for both would be that chain again.
pub fn band_edge(i: usize) -> usize
    ensures { result ≡ edge i }
{
    EDGES.get(i).copied().unwrap_or(LAST_EDGE)
}

// The mean energy of band i; +0 past the last.
#[tactic(auto, unfolding(crate::specs::Mode::mean, crate::specs::Mode::means))]
pub fn mean_energy(i: usize) -> f32
    ensures { result ≡ mean i }
{
    E_MEANS.get(i).copied().unwrap_or(0.0)
}

// The de-emphasis coefficients: four, as the mode has them; no step reads the third.
#[tactic(auto, unfolding(crate::specs::Mode::preemph))]
pub fn preemph() -> [f32; 4]
    ensures { result ≡ preemph }
{
    [0.8500061, 0.0, 1.0, 1.0]
}
