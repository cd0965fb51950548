// The block of N + 120 samples.
ghost use Rattle.std.specs.Prelude.{◌≡◌, ◌+◌, ◌*◌, ◌/◌, ◌≤◌, length};
ghost use Rattle.loops.specs.Front.{tab};
ghost use Rattle.custom_mode.specs.Mode.{overlap};
ghost use Rattle.noise_block.specs.Block.{windowed};

use celt_window::{low_overlap_window, window};
use custom_mode::standard::OVERLAP;

// The n + 120 outputs in the middle of the 2 n, doubled, times the window. 1,920 by number, as the laws of the window have it.
pub(crate) fn window_outputs(block: &mut [f32], u: &[f32])
    requires { (2 * overlap ≤ length u.now) × (length u.now ≤ 1920) × (length block.old ≡ length u.now / 2 + overlap) }
    ensures { block.new ≡ tab (windowed (length u.now / 2) u.now) (length u.now / 2 + overlap) }
{
    let w = window();
    let n = u.len() / 2;
    let p = (n - OVERLAP) / 2;
    // By number: the window goes by it, and the outputs from p on; of a zip with `iter_mut` a proof has the items alone.
    for (j, v) in block.iter_mut().enumerate() {
        *v = 2.0 * u[p + j] * low_overlap_window(&w, n, j);
    }
}
