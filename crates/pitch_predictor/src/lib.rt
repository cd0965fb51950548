// The predictors of the used channels, which a first pitch loss fits to a whole history.

#![tactic(auto)]

ghost use Rattle.std.specs.Prelude.{◌≡◌, eqb, length};
ghost use Rattle.reply.specs.Reply.{ok_if};
ghost use Rattle.history.specs.History.{whole, tails};
ghost use Rattle.pitch_predictor.specs.Predictor.{fitted_to};

use history::{HALF, SAMPLES, SECOND_END, SECOND_HALF, WHOLE};
use pitch_fit::pitch_fit;
use plc_pad::{COEFFICIENTS, ORDER};
use reply::Refused;

// The used channels' coefficients fitted anew; an unused channel's are carried. Refused: a history not of 4,336 samples.
// `two` answers a question, `Settings::is_stereo`: a bool, since this step is handed no settings.
pub fn fit_predictor(
    two: bool,
    history: &[f32],
    predictor: [f32; COEFFICIENTS],
) -> Result<[f32; COEFFICIENTS], Refused>
    ensures { result ≡ ok_if (eqb (length history.now) whole) (fitted_to two predictor (tails history.now)) }
{
    if history.len() != WHOLE {
        return Err(Refused);
    }
    let mut p = predictor;
    pitch_fit(&history[HALF..SAMPLES], &mut p[..ORDER])?;
    if two {
        pitch_fit(&history[SECOND_HALF..SECOND_END], &mut p[ORDER..])?;
    }
    Ok(p)
}
