// A noise block: the spectrum of a channel's noise through the inverse transform and the window.

#![tactic(auto)]

ghost use Rattle.std.specs.Prelude.{◌≡◌, ◌^◌, ◌≤◌, length};
ghost use Rattle.reply.specs.Reply.{replied, reply_if, value_or};
ghost use Rattle.noise_block.specs.Block.{drawn_block, noise_block};
ghost use Rattle.noise_block.specs.Call.{block_takes};

use block::window_outputs;
use cosine_circle::FRAME_MOST;
use custom_mode::standard::{LM_MOST, MAX_BANDS, OVERLAP, SHORT_BLOCK};
use mdct_mirrored::imdct_mirrored_f32;
use noise_spectrum::{Span, noise_spectrum};
use reply::Refused;

mod block;

// The longest block: the longest frame and its overlap.
pub const BLOCK_MOST: usize = FRAME_MOST + OVERLAP;

// Not `block_factor` of `sizes`, which takes 32 bits: a cast, and the crates of the settings for one shift. 3 and 8 by number, as
// the definition of what a block takes has them.
fn factor(lm: usize) -> usize
    requires { lm ≤ 3 }
    ensures { (result ≡ 2 ^ lm) × (1 ≤ result) × (result ≤ 8) }
{
    1 << lm
}

// lm 0 to 3, a span that fits and has a band, 25 energies, and N + 120 samples.
#[tactic(auto, using(std::proofs::lemmas::Bool::Decides::nat_tests), unfolding(crate::specs::Call::block_takes, crate::specs::Call::settings_fit, noise_spectrum::specs::Spectrum::span_fits))]
fn block_takes(lm: usize, span: Span, energies: usize, size: usize) -> bool
    ensures { result ≡ block_takes lm span.start span.end span.downsample energies size }
{
    lm <= LM_MOST
        && span.start < span.end
        && span.fits()
        && energies == MAX_BANDS
        && size == SHORT_BLOCK * factor(lm) + OVERLAP
}

// A channel's noise block in a buffer of N + 120 samples, from its 25 energies: answers the seed after it. As in `noise_spectrum`
// another number of samples or energies is promised a refusal: so lm stands beside the buffer, and the energies are a slice.
pub fn noise_block(
    block: &mut [f32],
    lm: usize,
    span: Span,
    seed: u32,
    energies: &[f32],
) -> Result<u32, Refused>
    ensures { replied result (drawn_block block.new (value_or seed result))
        ≡ reply_if (block_takes lm span.start span.end span.downsample (length energies.now) (length block.old))
        (noise_block (2 ^ lm) span.start span.end span.downsample seed energies.now) (drawn_block block.old seed) }
{
    if !block_takes(lm, span, energies.len(), block.len()) {
        return Err(Refused);
    }
    let m = factor(lm);
    let n = SHORT_BLOCK * m;
    // The longest frame's, cut to n: there is no heap.
    let mut bins = [0.0f32; FRAME_MOST];
    let mut outputs = [0.0f32; 2 * FRAME_MOST];
    let spectrum = &mut bins[..n];
    let u = &mut outputs[..2 * n];
    let after = noise_spectrum(spectrum, m, span, seed, energies)?;
    imdct_mirrored_f32(spectrum, u)?;
    window_outputs(block, u);
    Ok(after)
}
