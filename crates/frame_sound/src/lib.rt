// De-emphasis of a history's newest frame.

#![tactic(auto)]

ghost use Rattle.std.specs.Prelude.{◌≡◌, length};
ghost use Rattle.reply.specs.Reply.{replied, value_or, reply_if};
ghost use Rattle.deemphasis.specs.Deemphasis.{sound};
ghost use Rattle.frame_sound.specs.FrameSound.{frame_sound, sound_in, sound_takes};

use deemphasis_mono::deemphasis_mono;
use deemphasis_stereo::deemphasis_stereo;
use history::SECOND_END;
use reply::Refused;
use settings::Settings;
use settings::checks::settings_pass;
use sizes::{frame_size, needed_samples};

// Settings that pass, a whole history, and room for the samples.
#[tactic(auto, unfolding(crate::specs::FrameSound::sound_takes))]
fn sound_takes(k: Settings, n: usize, p: usize) -> bool
    ensures { result ≡ sound_takes k n p }
{
    settings_pass(k) && n == history::WHOLE && needed_samples(k) <= p
}

// The newest N samples of each used channel as PCM, and the memories after it. What is refused leaves PCM and memories.
// Parameters apart, as in `deemphasis_mono`.
pub fn frame_sound(
    k: Settings,
    history: &[f32],
    memories: [f32; 2],
    pcm: &mut [f32],
) -> Result<[f32; 2], Refused>
    ensures { replied result (sound pcm.new (value_or memories result))
        ≡ reply_if (sound_takes k (length history.now) (length pcm.old))
        (sound_in pcm.old (frame_sound k memories history.now)) (sound pcm.old memories) }
{
    if !sound_takes(k, history.len(), pcm.len()) {
        return Err(Refused);
    }
    let n = frame_size(k.lm);
    // By `as`: std has no `From` of a word to usize.
    let d = k.downsample as usize;
    let end = history::SAMPLES;
    let first = &history[end - n..end];
    if k.is_stereo() {
        let second = &history[SECOND_END - n..SECOND_END];
        deemphasis_stereo(first, second, memories, d, pcm)
    } else {
        deemphasis_mono(first, memories, d, pcm)
    }
}
