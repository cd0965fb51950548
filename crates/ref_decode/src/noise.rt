// The noise path.
ghost use Rattle.std.specs.Prelude.{◌≡◌, length};
ghost use Rattle.history.specs.History.{tails, with_tails};
ghost use Rattle.state.specs.Refusal.{refuses_state};
ghost use Rattle.loss.specs.Loss.{noise_made, tails_by_noise};

use finish::Made;
use noise_energies::{lower_energies, read_energies};
use noise_loss::noise_loss;
use state::{Kind, State};

// What comfort noise makes of a state, and leaves in its history.
pub(crate) fn noise_made(s: State, history: &mut [f32]) -> Made
    requires { refuses_state s (length history.old) ≡ 0 }
    ensures { (result ≡ noise_made s) × (history.new ≡ with_tails history.old (tails_by_noise s (tails history.old))) }
{
    let k = s.settings;
    // By `as`: std has no `From` of a word to usize.
    let coarse = lower_energies(
        s.coarse,
        k.channels as usize,
        k.start as usize,
        k.end as usize,
        s.loss_count,
    );
    let energies = read_energies(coarse, s.background, s.loss_count);
    let seed = noise_loss(k, history, s.seed, energies).unwrap();
    // a field that is an array goes into the answer by a variable: straight in the literal it is not covered by the check
    let predictor = s.predictor;
    Made {
        kind: u32::from(Kind::Noise),
        seed,
        lag: s.lag,
        coarse,
        predictor,
    }
}
