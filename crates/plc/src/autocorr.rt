// The autocorrelation of 1,024 samples.
ghost use Rattle.std.specs.Prelude.{◌≡◌, ◌+◌, ◌-◌, ◌≤◌, ◌<◌, length};
ghost use Rattle.plc_window.specs.Window.{windowed_ends};
ghost use Rattle.plc.specs.Autocorr.{celt_autocorr, lag_row};

use history::{HALF, OVERLAP};
use plc_pad::ORDER;

// The order of the predictor that whitens downsampled samples.
pub const WHITENING: usize = 4;

// What the correlation at lag 0 rises by.
const NOISE_FLOOR: f32 = 10.0;

// The terms of each lag whose later sample stands before the longest lag.
// Slices here and below, not arrays of a size that each caller has: the contracts count by the row's length.
// The lag by the place of its sum: a zip with `iter_mut` tells a proof the items, not the list that they leave.
fn first_terms(x: &[f32], row: &mut [f32])
    requires { (0 < length row.old) × (length row.old ≤ length x.now) }
    ensures { row.new ≡ lag_row x.now (length row.old) (length row.old - 1) }
{
    let top = row.len() - 1;
    for (j, sum) in row.iter_mut().enumerate() {
        let lag = top - j;
        let mut d = 0.0f32;
        for (a, b) in x[lag..top].iter().zip(x) {
            d += a * b;
        }
        *sum = d;
    }
}

// The other terms: at each sample one of every lag, so that the sums run side by side, each in its own order.
// Within by place: a zip with `iter_mut` tells a proof the items, not the list that they leave; and a loop of its own, as `add_taps`
// in plc_fir says.
fn other_terms(x: &[f32], row: &mut [f32])
    requires { (0 < length row.old) × (length row.old ≤ length x.now) × (row.old ≡ lag_row x.now (length row.old) (length row.old - 1)) }
    ensures { row.new ≡ lag_row x.now (length row.old) (length x.now) }
{
    let lags = row.len();
    for (v, part) in x[lags - 1..].iter().zip(x.windows(lags)) {
        for (j, sum) in row.iter_mut().enumerate() {
            *sum += *v * part[j];
        }
    }
}

// The correlations at the lags below LAGS, the noise floor on the first.
fn correlations<const LAGS: usize>(x: &[f32; HALF]) -> [f32; LAGS]
    requires { (0 < LAGS) × (LAGS ≤ HALF) }
    ensures { result ≡ celt_autocorr x.now LAGS }
{
    let mut row = [0.0f32; LAGS];
    first_terms(x, &mut row);
    other_terms(x, &mut row);
    row.reverse();
    row[0] += NOISE_FLOOR;
    row
}

// The correlations that the whitening's predictor needs.
// A size each, here and below: of any number of lags the function would need a `requires`.
pub fn celt_autocorr(x: &[f32; HALF]) -> [f32; WHITENING + 1]
    ensures { result ≡ celt_autocorr x.now 5 }
{
    correlations(x)
}

// The correlations that a channel's predictor needs, the window on both ends.
pub fn celt_autocorr_windowed(x: &[f32; HALF], window: &[f32; OVERLAP]) -> [f32; ORDER + 1]
    ensures { result ≡ celt_autocorr (windowed_ends x.now window.now) 25 }
{
    correlations(&plc_window::windowed_ends(x, window))
}
