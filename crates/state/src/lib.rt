// What a decoder carries from frame to frame, which states and buffers are refused, by which path a loss goes, and what a call
// answers.

#![tactic(auto)]

pub mod checks;

ghost use Rattle.std.specs.Prelude.{◌≡◌, ◌≤◌, ◌<◌, [], ◌∷◌};
ghost use Rattle.state.specs.Answer.{kind_of, report_of, answer_words};
ghost use Rattle.state.specs.State.{core, noisy};

use custom_mode::standard::ENERGIES;
use plc_pad::COEFFICIENTS;
use post_filter::Filter;
use settings::{Refusal, Settings};

// All that a decoder carries but for the history, which is lent beside it. Of each array channel 0's values come first: flat, as
// document 01's words have them.
#[derive(Clone, Copy)]
pub struct State {
    pub settings: Settings,
    pub loss_count: u32,
    pub seed: u32,
    pub lag: u32,
    pub filter: Filter,
    pub coarse: [f32; ENERGIES],
    pub background: [f32; ENERGIES],
    pub memories: [f32; 2],
    pub predictor: [f32; COEFFICIENTS],
}

// The path of an accepted loss.
#[derive(Clone, Copy, Debug, PartialEq, Eq)]
pub enum Kind {
    Pitch,
    Noise,
}

// Document 01's number.
impl From<Kind> for u32 {
    ghost from_gives = { λ k n. n ≡ kind_of k };

    fn from(k: Kind) -> u32 {
        match k {
            Kind::Pitch => 1,
            Kind::Noise => 2,
        }
    }
}

// What an accepted call did: its kind, the PCM samples written, and the state after it. The kind as document 01's number: the end
// of a call takes any, and passes it on.
#[derive(Clone, Copy)]
pub struct Answer {
    pub kind: u32,
    pub samples: usize,
    pub state: State,
}

// The number of an accepted call.
const ACCEPTED: u32 = 0;

// What a refused call has for a kind, and for a sample count.
const NOTHING: u32 = 0;

// What a call answers, as document 01's three words, which C and a record's head have: number, kind and sample count. (A sample
// count past 32 bits, which no call has, becomes the greatest of them.)
pub fn report(call: &Result<Answer, Refusal>) -> [u32; 3]
    ensures words { (report_of call.now).samples ≤ 4_294_967_295 → result ≡ answer_words (report_of call.now) }
    ensures past { 4_294_967_295 < (report_of call.now).samples
        → result ≡ (report_of call.now).number ∷ (report_of call.now).kind ∷ 4_294_967_295 ∷ [] }
{
    match call {
        Ok(a) => [
            ACCEPTED,
            a.kind,
            u32::try_from(a.samples).unwrap_or(u32::MAX),
        ],
        Err(e) => [u32::from(*e), NOTHING, NOTHING],
    }
}

// The first loss count that goes by noise at any start band. It says which path; from which count a noise loss reads the background
// is a rule of its own, with the same number, in `noise_energies`.
const FIRST_NOISE: u32 = checks::PITCH_LAST + 1;

// Whether an accepted loss goes by noise.
#[tactic(auto, unfolding(crate::specs::State::noisy))]
pub fn by_noise(s: State) -> bool
    ensures { result ≡ noisy (core s) }
{
    FIRST_NOISE <= s.loss_count || s.settings.start != 0
}
