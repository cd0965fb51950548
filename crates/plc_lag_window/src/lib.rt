// Noise floor and lag windowing of correlations, ahead of a predictor.

#![tactic(auto)]

ghost use Rattle.std.specs.Prelude.{◌≡◌, ◌≤◌, leb, length};
ghost use Rattle.reply.specs.Reply.{replied, reply_if};
ghost use Rattle.plc_lag_window.specs.LagWindow.{lag_value, lag_window};

use reply::Refused;

// The lags that f32 counts exactly, with room to spare.
const MOST_LAGS: usize = 65_536;

// The correlation at lag 0 rises by a noise floor 40 dB below it.
const FLOOR_FACTOR: f32 = 1.0001;

// The window falls with the square of so much for each lag.
const LAG_STEP: f32 = 0.008;

// The correlation a of lag i: raised by the noise floor at lag 0, else windowed.
#[tactic(auto, unfolding(crate::specs::LagWindow::lag_value, crate::specs::LagWindow::lag_windowed, crate::specs::LagWindow::lag_factor))]
fn lag_value(a: f32, i: usize) -> f32
    requires { i ≤ MOST_LAGS }
    ensures { result ≡ lag_value a i }
{
    if i == 0 {
        return a * FLOOR_FACTOR;
    }
    // `as`: the library has no `From` of a usize for f32.
    let f = LAG_STEP * (i as f32);
    a - a * f * f
}

// Noise floor and lag windowing. Refused, with nothing changed, above 65,536 values.
pub fn lag_window(ac: &mut [f32]) -> Result<(), Refused>
    ensures { replied result ac.new ≡ reply_if (leb (length ac.old) 65536) (lag_window ac.old) ac.old }
{
    if MOST_LAGS < ac.len() {
        return Err(Refused);
    }
    for (i, a) in ac.iter_mut().enumerate() {
        *a = lag_value(*a, i);
    }
    Ok(())
}
