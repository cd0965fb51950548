// Correlations of a stretch of samples with each place of another, side by side.

#![tactic(auto)]

ghost use Rattle.std.specs.Prelude.{◌≡◌, ℕ, ◌+◌, ◌*◌, ◌-◌, ◌≤◌, ◌<◌, length, get_or};
ghost use Rattle.std.specs.Float.{nan, binary32};
ghost use Rattle.std.specs.Float.Ieee.{add, mul};
ghost use Rattle.loops.specs.Front.{tab};
ghost use Rattle.reply.specs.Reply.{replied, reply_if};
ghost use Rattle.plc_correlate.specs.Correlation.{cross_sum, correlation, correlate_takes};

use reply::Refused;

// One term more in each of the sums.
fn add_products(v: f32, y: &[f32], sums: &mut [f32])
    requires { length sums.old ≤ length y.now }
    ensures { sums.new
        ≡ tab (λ (i : ℕ). add binary32 (get_or sums.old i nan) (mul binary32 v (get_or y.now i nan))) (length sums.old) }
{
    // By place: a zip with `iter_mut` tells a proof the items, not the list that they leave. (Why it is not one function with the
    // loops of plc_fir and plc: see `add_taps` in plc_fir.)
    for (i, s) in sums.iter_mut().enumerate() {
        *s += v * y[i];
    }
}

// All sums side by side, so that each keeps its own order and they do not wait for each other.
fn cross_sums(x: &[f32], y: &[f32], sums: &mut [f32])
    requires { length x.now + length sums.old ≤ length y.now + 1 }
    ensures { sums.new ≡ tab (λ (i : ℕ). cross_sum x.now y.now i (length x.now)) (length sums.old) }
{
    sums.fill(0.0);
    // By place: `windows` of no values would panic, and a call for no sums is taken too.
    for (j, v) in x.iter().enumerate() {
        add_products(*v, &y[j..], sums);
    }
}

// The correlations of x with y from each of the first places on. A y too short for the last of them is refused, and xcorr stays.
pub fn correlate(x: &[f32], y: &[f32], xcorr: &mut [f32]) -> Result<(), Refused>
    ensures { replied result xcorr.new
        ≡ reply_if (correlate_takes (length x.now) (length y.now) (length xcorr.old))
        (tab (correlation x.now y.now (length x.now)) (length xcorr.old)) xcorr.old }
{
    if y.len() + 1 < x.len() + xcorr.len() {
        return Err(Refused);
    }
    cross_sums(x, y, xcorr);
    for c in xcorr.iter_mut() {
        *c = float_extremes::max_f32(*c, -1.0);
    }
    Ok(())
}
