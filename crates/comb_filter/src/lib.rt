// The comb filter with constant taps.

#![tactic(auto)]

ghost use Rattle.std.specs.Prelude.{◌≡◌, ◌+◌, ◌≤◌, ◌<◌, length, get_or};
ghost use Rattle.std.specs.Float.{nan};
ghost use Rattle.loops.specs.Front.{tab};
ghost use Rattle.reply.specs.Reply.{replied, reply_if};
ghost use Rattle.post_filter.specs.Limits.{period_most};
ghost use Rattle.history.specs.History.{half, overlap};
ghost use Rattle.comb_filter.specs.Comb.{tap_gain, comb_at, comb_filter_to, comb_filtered, comb_takes};

use history::{HALF, OVERLAP, TAIL};
use post_filter::{Filter, comb_gains, filter_fits};
use reply::Refused;

// What each tap is multiplied by: the negated gain times each of the tapset's factors.
fn tap_gains(f: Filter) -> [f32; 3]
    ensures { result ≡ tab (tap_gain f) 3 }
{
    let g = -f.gain;
    // Of any tapset: `comb_gains` is total, and the limits are the caller's.
    comb_gains(f.tapset).map(|c| g * c)
}

// Starts from the sample and adds tap by tap.
#[tactic(auto, unfolding(crate::specs::Comb::comb_at, crate::specs::Comb::pair_at))]
fn comb_at(x: &[f32], i: usize, period: usize, g: [f32; 3]) -> f32
    requires { (period + 2 ≤ i) × (i < length x.now) × (2 < period) }
    ensures { result ≡ comb_at x.now i period (get_or g 0 nan) (get_or g 1 nan) (get_or g 2 nan) }
{
    let a = i - period;
    x[i] + g[0] * x[a] + g[1] * (x[a - 1] + x[a + 1]) + g[2] * (x[a - 2] + x[a + 2])
}

// The overlap at the end of x filtered into dst; x itself is only read. Refused, with dst as lent: dst not of 120 samples,
// x not of 1,144, a setting outside its limits.
#[tactic(auto, using(std::proofs::lemmas::Bool::Decides::nat_tests), unfolding(reply::specs::Reply::reply_if, crate::specs::Comb::comb_takes))]
pub fn comb_filter_to(dst: &mut [f32], x: &[f32], f: Filter) -> Result<(), Refused>
    ensures { replied result dst.new
        ≡ reply_if (comb_takes (length dst.old) (length x.now) f) (comb_filtered f x.now) dst.old }
{
    if dst.len() != OVERLAP || x.len() != TAIL || !filter_fits(f) {
        return Err(Refused);
    }
    let g = tap_gains(f);
    // `as`: the library has no `From` of a u32 for usize.
    let period = f.period as usize;
    // By place: each reads x around its own place one period back.
    for (i, sample) in dst.iter_mut().enumerate() {
        *sample = comb_at(x, HALF + i, period, g);
    }
    Ok(())
}
