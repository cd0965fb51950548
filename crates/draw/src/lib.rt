// What is drawn for a lost frame's noise.

#![tactic(auto)]

ghost use Rattle.std.specs.Prelude.{◌≡◌, length};
ghost use Rattle.draw.specs.Draw.{draw, draws};
ghost use Rattle.draw.specs.Noise.{noise_band};

use float_bits::words::{noise_value, wrapping_mul_u32};

// The factor of the linear congruential generator.
const MULTIPLIER: u32 = 1_664_525;

// Its addend.
const ADDEND: u32 = 1_013_904_223;

// The next seed of the linear congruential generator.
#[tactic(auto, unfolding(crate::specs::Draw::draw, float_bits::specs::Words::wrapping_mul))]
pub fn celt_lcg_rand(seed: u32) -> u32
    ensures { result ≡ draw seed }
{
    wrapping_mul_u32(seed, MULTIPLIER).wrapping_add(ADDEND)
}

// Fills x with the values of successive draws and returns the last seed.
pub fn noise_fill(x: &mut [f32], seed: u32) -> u32
    ensures { (result ≡ draws (length x.old) seed) × (x.new ≡ noise_band (length x.old) seed) }
{
    let mut s = seed;
    for v in x.iter_mut() {
        s = celt_lcg_rand(s);
        *v = noise_value(s);
    }
    s
}
