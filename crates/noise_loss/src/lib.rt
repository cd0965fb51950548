// A noise loss: a noise block over each used channel's newest samples.

#![tactic(auto)]

ghost use Rattle.std.specs.Prelude.{◌≡◌, ◌+◌, ◌≤◌, length};
ghost use Rattle.loops.specs.Part.{put};
ghost use Rattle.reply.specs.Reply.{replied, reply_if, value_or};
ghost use Rattle.history.specs.History.{half, overlap, channel, tail_at, tail_list};
ghost use Rattle.settings.specs.Settings.{frame, check_settings};
ghost use Rattle.noise_cover.specs.Cover.{covered_tail};
ghost use Rattle.noise_loss.specs.Loss.{channel_block, noised, after_noise, noise_takes};

use custom_mode::standard::{ENERGIES, MAX_BANDS};
use history::{CHANNEL, OVERLAP, SAMPLES, WHOLE};
use noise_block::{BLOCK_MOST, noise_block};
use noise_cover::lay;
use noise_spectrum::Span;
use reply::Refused;
use settings::Settings;
use settings::checks::settings_pass;
use sizes::frame_size;

// One channel with its overlap, from its 25 energies; the seed after its block. The channel is a slice: `split_at_mut` lends both
// at once, and for an array each would be taken apart once more.
fn noise_channel(part: &mut [f32], k: Settings, seed: u32, energies: &[f32; MAX_BANDS]) -> u32
    requires { (check_settings k ≡ 0) × (length part.old ≡ channel) }
    ensures { (result ≡ (channel_block k seed energies.now).seed)
        × (part.new ≡ put half (half + overlap)
        (tail_list (covered_tail (frame k) (channel_block k seed energies.now).samples (tail_at 0 part.old))) part.old) }
{
    let n = frame_size(k.lm);
    // Only here do settings become a span: a `From` would stand in `noise_spectrum`, which names no settings. They become it by
    // casts, as lm below: the library makes no usize of a word without a case for failure.
    let span = Span {
        start: k.start as usize,
        end: k.end as usize,
        downsample: k.downsample as usize,
    };
    // The longest block's, cut to n + 120: there is no heap.
    let mut room = [0.0f32; BLOCK_MOST];
    let block = &mut room[..n + OVERLAP];
    let after = noise_block(block, k.lm as usize, span, seed, energies).unwrap();
    lay(&mut part[SAMPLES - n..], block).unwrap();
    after
}

// A noise loss of a whole history, from the energies of both channels: answers the seed after its blocks. The second channel
// goes on from the first one's seed.
pub fn noise_loss(
    k: Settings,
    history: &mut [f32],
    seed: u32,
    energies: [f32; ENERGIES],
) -> Result<u32, Refused>
    ensures { replied result (noised history.new (value_or seed result))
        ≡ reply_if (noise_takes k (length history.old)) (after_noise k seed energies history.old) (noised history.old seed) }
{
    if !settings_pass(k) || history.len() != WHOLE {
        return Err(Refused);
    }
    let (first, second) = history.split_at_mut(CHANNEL);
    let one = noise_channel(first, k, seed, energies.first_chunk().unwrap());
    if k.is_stereo() {
        Ok(noise_channel(second, k, one, energies.last_chunk().unwrap()))
    } else {
        Ok(one)
    }
}
