// The predictor of one channel, which a first pitch loss fits.

#![tactic(auto)]

ghost use Rattle.std.specs.Prelude.{◌≡◌, length};
ghost use Rattle.reply.specs.Reply.{replied, reply_if};
ghost use Rattle.pitch_fit.specs.Fit.{pitch_fit, fit_takes};

use history::HALF;
use plc::autocorr::celt_autocorr_windowed;
use plc_lag_window::lag_window;
use plc_lpc::celt_lpc;
use plc_pad::ORDER;
use reply::Refused;

// 24 coefficients from a channel's newest 1,024 samples; other lengths are refused, and lpc stays.
#[tactic(auto, using(std::proofs::lemmas::Bool::Decides::nat_tests), unfolding(reply::specs::Reply::reply_if, crate::specs::Fit::fit_takes))]
pub fn pitch_fit(newest: &[f32], lpc: &mut [f32]) -> Result<(), Refused>
    ensures { replied result lpc.new
        ≡ reply_if (fit_takes (length newest.now) (length lpc.old)) (pitch_fit newest.now) lpc.old }
{
    if lpc.len() != ORDER {
        return Err(Refused);
    }
    let newest = <&[f32; HALF]>::try_from(newest)?;
    let mut ac = celt_autocorr_windowed(newest, &celt_window::window());
    lag_window(&mut ac)?;
    celt_lpc(lpc, &ac)
}
