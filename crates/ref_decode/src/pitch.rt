// The pitch path.
ghost use Rattle.std.specs.Prelude.{◌≡◌, false, length};
ghost use Rattle.history.specs.History.{tails, with_tails};
ghost use Rattle.state.specs.State.{core, noisy};
ghost use Rattle.state.specs.Refusal.{refuses_state};
ghost use Rattle.loss.specs.Loss.{pitch_made, tails_by_pitch};

use finish::Made;
use pitch_lag::find_lag;
use pitch_loss::{Pitch, pitch_loss};
use pitch_predictor::fit_predictor;
use state::{Kind, State};

// What extrapolation by the pitch makes of a state, and leaves in its history. The lag is searched and the coefficients
// are fitted at the first loss, and carried after it.
pub(crate) fn pitch_made(s: State, history: &mut [f32]) -> Made
    requires { (refuses_state s (length history.old) ≡ 0) × (noisy (core s) ≡ false) }
    ensures { (result ≡ pitch_made s history.old)
        × (history.new ≡ with_tails history.old (tails_by_pitch s (pitch_made s history.old) (tails history.old))) }
{
    let first = s.loss_count == 0;
    // an array field goes into a tuple or a struct literal by a variable, here and below: straight in one it is not covered by the check
    let carried = s.predictor;
    let (lag, predictor) = if first {
        let two = s.settings.is_stereo();
        let lag = find_lag(two, history).unwrap();
        let predictor = fit_predictor(two, history, carried).unwrap();
        (lag, predictor)
    } else {
        (s.lag, carried)
    };
    let pitch = Pitch {
        lag,
        first,
        predictor,
        filter: s.filter,
    };
    pitch_loss(s.settings, history, pitch).unwrap();
    let coarse = s.coarse;
    Made {
        kind: u32::from(Kind::Pitch),
        seed: s.seed,
        lag,
        coarse,
        predictor,
    }
}
