// The end of a call, whichever path it went: de-emphasis, and the state after it.

#![tactic(auto)]

ghost use Rattle.std.specs.Prelude.{◌≡◌, length, Ok};
ghost use Rattle.state.specs.Refusal.{refusal};
ghost use Rattle.finish.specs.Finish.{finish, outcome_of, in_buffer, finished};

use custom_mode::standard::ENERGIES;
use frame_sound::frame_sound;
use plc_pad::COEFFICIENTS;
use settings::Refusal;
use sizes::needed_samples;
use state::checks::first_refusal;
use state::{Answer, State};

// What a path made of a state. Its kind is a number: the two paths have theirs from `Kind`, and the end of a call passes any on.
#[derive(Clone, Copy)]
pub struct Made {
    pub kind: u32,
    pub seed: u32,
    pub lag: u32,
    pub coarse: [f32; ENERGIES],
    pub predictor: [f32; COEFFICIENTS],
}

// From what a path made and the history that it left.
fn conclude(s: State, made: Made, history: &[f32], pcm: &mut [f32]) -> Answer
    requires { refusal s (length history.now) (length pcm.old) ≡ 0 }
    ensures { outcome_of s (Ok result) pcm.new history.now ≡ in_buffer pcm.old (finish s made history.now) }
{
    let memories = frame_sound(s.settings, history, s.memories, pcm).unwrap();
    // taken apart: an array field straight in a literal, as `coarse: made.coarse`, is not covered by the check
    let Made {
        kind,
        seed,
        lag,
        coarse,
        predictor,
    } = made;
    let state = State {
        loss_count: s.loss_count + 1,
        seed,
        lag,
        coarse,
        memories,
        predictor,
        ..s
    };
    Answer {
        kind,
        samples: needed_samples(s.settings),
        state,
    }
}

// The end of a call. What the table refuses is refused for its first reason, and nothing is written.
pub fn finish(s: State, made: Made, history: &[f32], pcm: &mut [f32]) -> Result<Answer, Refusal>
    ensures { outcome_of s result pcm.new history.now
        ≡ in_buffer pcm.old (finished s made history.now (length pcm.old)) }
{
    first_refusal(s, history.len(), pcm.len())?;
    Ok(conclude(s, made, history, pcm))
}
