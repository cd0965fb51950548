// 2:1 downsampling ahead of the lag search (`pitch_downsample`): one channel, and two summed.

#![tactic(auto)]

ghost use Rattle.std.specs.Prelude.{◌≡◌, ℕ, ◌<◌, length, get_or, MatchOption};
ghost use Rattle.std.specs.Float.{nan};
ghost use Rattle.reply.specs.Reply.{replied, reply_if};
ghost use Rattle.plc_downsample.specs.Downsample.{smoothed_at, downsample_takes, pitch_downsample};
ghost use Rattle.plc_downsample.specs.Downsample.{downsample_pair_takes, pitch_downsample_pair};

use history::{HALF, SAMPLES};
use plc_whiten::whiten;
use reply::Refused;

// Sample i at half rate: half of sample 2 i and a quarter of each neighbour. 1,024 by number, as its laws have it.
#[tactic(auto, unfolding(crate::specs::Downsample::smoothed_at))]
fn smooth_at(x: &[f32; SAMPLES], i: usize) -> f32
    requires { i < 1024 }
    ensures { result ≡ smoothed_at x.now i }
{
    if i == 0 {
        return 0.5 * (0.5 * x[1] + x[0]);
    }
    0.5 * (0.5 * (x[2 * i - 1] + x[2 * i + 1]) + x[2 * i])
}

// Each sample at half rate, as `at` gives it. By place: the library's `fill_with` hands its closure no number.
// A loop of its own, as `outputs` in mdct_mirrored says.
fn fill_by<F: Fn(usize) -> f32>(x_lp: &mut [f32], at: F)
    requires { (i : ℕ) → i < length x_lp.old → F.pre at i }
    ensures { (i : ℕ) → i < length x_lp.old → F.post at i (get_or x_lp.new i nan) }
{
    for (i, v) in x_lp.iter_mut().enumerate() {
        *v = at(i);
    }
}

// x at half rate, with the second channel added where there is one.
// Refused, with nothing changed, unless each channel has 2,048 samples and x_lp 1,024.
pub fn pitch_downsample(x: &[f32], second: Option<&[f32]>, x_lp: &mut [f32]) -> Result<(), Refused>
    ensures { MatchOption second.entry
        (replied result x_lp.new ≡ reply_if (downsample_takes (length x.now) (length x_lp.old)) (pitch_downsample x.now) x_lp.old)
        (λ y. replied result x_lp.new
        ≡ reply_if (downsample_pair_takes (length x.now) (length y.now) (length x_lp.old)) (pitch_downsample_pair x.now y.now) x_lp.old) }
{
    let x = <&[f32; SAMPLES]>::try_from(x)?;
    if x_lp.len() != HALF {
        return Err(Refused);
    }
    match second {
        None => fill_by(x_lp, |i| smooth_at(x, i)),
        Some(y) => {
            let y = <&[f32; SAMPLES]>::try_from(y)?;
            fill_by(x_lp, |i| smooth_at(x, i) + smooth_at(y, i));
        }
    }
    whiten(x_lp)
}
