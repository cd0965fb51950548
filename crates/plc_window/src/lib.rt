// A window on both ends of 1,024 samples.

#![tactic(auto)]

ghost use Rattle.std.specs.Prelude.{◌≡◌};
ghost use Rattle.plc_window.specs.Window.{windowed_ends};

use history::{HALF, OVERLAP};

// The samples with the window on their first and last 120.
pub fn windowed_ends(x: &[f32; HALF], window: &[f32; OVERLAP]) -> [f32; HALF]
    ensures { result ≡ windowed_ends x.now window.now }
{
    let mut xx = *x;
    // By place: w is put on the sample there, and on the one as far from the other end.
    for (i, w) in window.iter().enumerate() {
        let end = x.len() - i - 1;
        xx[i] = x[i] * *w;
        xx[end] = x[end] * *w;
    }
    xx
}
