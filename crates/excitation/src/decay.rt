// How fast the waveform decays from one pitch cycle to the next.
ghost use Rattle.std.specs.Prelude.{◌≡◌, ◌≤◌};
ghost use Rattle.excitation.specs.Decay.{longest_period, decay_period, pitch_decay};

use float_extremes::min_f32;
use float_root::sqrt_f32;
use history::HALF;

const LONGEST: usize = HALF / 2;

// A period of which two fit the excitation.
#[tactic(auto, using(std::proofs::lemmas::Bool::Decides::nat_tests), unfolding(crate::specs::Decay::decay_period))]
pub(crate) fn decay_period(lag: usize) -> usize
    ensures { (result ≡ decay_period lag) × (result ≤ longest_period) }
{
    lag.min(LONGEST)
}

// The root of the newest period's energy over that of the one before it, at most 1.
pub(crate) fn pitch_decay(exc: &[f32; HALF], lag: usize) -> f32
    ensures { result ≡ pitch_decay exc.now lag }
{
    let period = decay_period(lag);
    let newest = HALF - period;
    let before = HALF - 2 * period;
    let mut e1 = 1.0f32;
    let mut e2 = 1.0f32;
    // Both periods in one loop, so that their sums run side by side.
    for (a, b) in exc[newest..].iter().zip(&exc[before..newest]) {
        e1 += a * a;
        e2 += b * b;
    }
    sqrt_f32(min_f32(e1, e2) / e2)
}
