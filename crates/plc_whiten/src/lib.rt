// The whitening of downsampled samples, by a damped predictor of order 4.

#![tactic(auto)]

ghost use Rattle.std.specs.Prelude.{◌≡◌, eqb, length};
ghost use Rattle.reply.specs.Reply.{replied, reply_if};
ghost use Rattle.plc_whiten.specs.Whiten.{damped, whitener, whiten_lp};

use history::HALF;
use plc::autocorr::{WHITENING, celt_autocorr};
use plc_fir::celt_fir_inplace;
use plc_lag_window::lag_window;
use plc_lpc::celt_lpc;
use reply::Refused;

// What each coefficient of the predictor is damped by, once more than the one before it.
const DAMPING: f32 = 0.9;

// The zero that the whitening filter has besides.
const TILT: f32 = 0.8;

// Coefficient k times 0.9 to the power k + 1.
fn damp(lpc: &mut [f32])
    ensures { lpc.new ≡ damped lpc.old }
{
    let mut factor = 1.0f32;
    for v in lpc.iter_mut() {
        factor *= DAMPING;
        *v *= factor;
    }
}

// The damped predictor.
fn whitening(lp: &[f32; HALF]) -> [f32; WHITENING]
    ensures { result ≡ whitener lp.now }
{
    let mut ac = celt_autocorr(lp);
    lag_window(&mut ac).unwrap();
    let mut lpc = [0.0f32; WHITENING];
    celt_lpc(&mut lpc, &ac).unwrap();
    damp(&mut lpc);
    lpc
}

// Whitens 1,024 samples by their own predictor. Another number is refused, and they stay.
#[tactic(auto, using(std::proofs::lemmas::Bool::Decides::nat_tests), unfolding(reply::specs::Reply::reply_if))]
pub fn whiten(x_lp: &mut [f32]) -> Result<(), Refused>
    ensures { replied result x_lp.new ≡ reply_if (eqb (length x_lp.old) 1024) (whiten_lp x_lp.old) x_lp.old }
{
    let x = <&[f32; HALF]>::try_from(&x_lp[..])?;
    let num = whitening(x);
    celt_fir_inplace(x_lp, &num, &[0.0; WHITENING])?;
    celt_fir_inplace(x_lp, &[TILT], &[0.0])
}
