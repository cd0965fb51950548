// One lost frame, from a carried state and its lent history to PCM: `CeltRefDecoder::decode_lost`.

#![tactic(auto)]

mod noise;
mod pitch;

ghost use Rattle.std.specs.Prelude.{◌≡◌, length};
ghost use Rattle.loss.specs.Loss.{loss, outcome_of, in_buffer};

use finish::finish;
use noise::noise_made;
use pitch::pitch_made;
use settings::Refusal;
use state::checks::first_refusal;
use state::{Answer, State, by_noise};

// Conceals one lost frame: `history` is 4,336 samples, channel 0 first, each channel's 2,048 oldest first and then
// 120 of overlap; by its length, since document 01 has a number for other lengths. An accepted call leaves the rest of a longer PCM
// buffer as it was; a refused one leaves everything.
pub fn decode_lost(s: State, history: &mut [f32], pcm: &mut [f32]) -> Result<Answer, Refusal>
    ensures { outcome_of s result pcm.new history.new
        ≡ in_buffer pcm.old (loss s history.old (length pcm.old)) }
{
    first_refusal(s, history.len(), pcm.len())?;
    let made = if by_noise(s) {
        noise_made(s, history)
    } else {
        pitch_made(s, history)
    };
    finish(s, made, history, pcm)
}
