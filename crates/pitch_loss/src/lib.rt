// A pitch loss on a whole history: the newest samples are continued by a frame, which is rolled in,
// folded into the overlap and pre-filtered.

#![tactic(auto)]

ghost use Rattle.std.specs.Prelude.{◌≡◌, length};
ghost use Rattle.reply.specs.Reply.{replied, reply_if};
ghost use Rattle.history.specs.History.{whole, tails, with_tails};
ghost use Rattle.settings.specs.Settings.{frame, stereo};
ghost use Rattle.pitch_loss.specs.PitchLoss.{pitch_tails, pitch_takes};

use channels::Loss;
use history::WHOLE;
use plc_pad::COEFFICIENTS;
use post_filter::{Filter, filter_fits};
use reply::Refused;
use settings::Settings;
use settings::checks::settings_pass;
use sizes::frame_size;
use state::checks::{LAG_LEAST, LAG_MOST};

mod channels;

// What a pitch loss goes by.
#[derive(Clone, Copy)]
pub struct Pitch {
    pub lag: u32,
    // Whether no loss came before: a bool, since a caller has it as a comparison, `loss_count == 0`.
    pub first: bool,
    // 24 coefficients of either channel.
    pub predictor: [f32; COEFFICIENTS],
    pub filter: Filter,
}

#[tactic(auto, using(std::proofs::lemmas::Bool::Decides::nat_tests), unfolding(crate::specs::PitchLoss::pitch_takes))]
fn takes(k: Settings, pitch: Pitch) -> bool
    ensures { result ≡ pitch_takes k whole pitch.lag pitch.filter }
{
    settings_pass(k) && (LAG_LEAST..=LAG_MOST).contains(&pitch.lag) && filter_fits(pitch.filter)
}

// Conceals a lost frame of each used channel.
// Refused, with the history as lent: settings that do not pass, a history not of 4,336 samples, a lag outside 102 to 720,
// a filter outside its limits.
pub fn pitch_loss(k: Settings, history: &mut [f32], pitch: Pitch) -> Result<(), Refused>
    ensures { replied result history.new
        ≡ reply_if (pitch_takes k (length history.old) pitch.lag pitch.filter)
        (with_tails history.old
        (pitch_tails (stereo k) (frame k) pitch.lag pitch.first pitch.predictor pitch.filter (tails history.old)))
        history.old }
{
    let history = history.as_mut_array::<WHOLE>().ok_or(Refused)?;
    if !takes(k, pitch) {
        return Err(Refused);
    }
    let loss = Loss {
        n: frame_size(k.lm),
        pitch,
    };
    if k.is_stereo() {
        loss.conceal_stereo(history);
    } else {
        loss.conceal_mono(history);
    }
    Ok(())
}
