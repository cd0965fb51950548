// Ops 601 to 624: the window, the cosine table, the cosine sum and the mirrored one.
ghost use Rattle.std.specs.Prelude.{◌≡◌, true, ◌*◌, ◌≤◌};
ghost use Rattle.cosine_circle.specs.Circle.{is_frame_size};

use crate::streams::{Value, Wire};
use celt_window::{low_overlap_window, window};
use cosine_table::cosines;
use custom_mode::standard::FRAME_MOST;
use mdct::imdct::imdct_naive_f32;
use mdct_mirrored::imdct_mirrored_f32;
use sizes::frame_size;
use std::io;

// An entry of a table, by its number. The table is made inside the closure: as an argument its room would be cleared for every op of
// this hundred. False past its end: there is no answer then, and the program stops as at an op that it does not know.
fn answer_entry<V: Value, F: Fn(usize) -> Option<V>>(wire: &mut Wire, entry: F) -> io::Result<bool>
    requires { F.IsAlwaysCallable entry }
{
    let at: usize = wire.read()?;
    match entry(at) {
        Some(v) => wire.write(v)?,
        None => return Ok(false),
    }
    Ok(true)
}

// The bins of a frame to twice as many samples. Both sizes: no array length is computed from a const parameter.
fn answer_sum<const BINS: usize, const SAMPLES: usize>(wire: &mut Wire) -> io::Result<()>
    requires { (BINS ≤ FRAME_MOST) × (is_frame_size BINS ≡ true) × (SAMPLES ≡ 2 * BINS) }
{
    let spectrum = wire.read::<[f32; BINS]>()?;
    let mut out = [0.0f32; SAMPLES];
    imdct_naive_f32(&spectrum, &mut out).unwrap();
    wire.write(out)
}

// The same by half of the sums. Apart: one for both would take the step as a closure and its count of products as an
// `Option`, and be longer than the two.
fn answer_mirrored<const BINS: usize, const SAMPLES: usize>(wire: &mut Wire) -> io::Result<()>
    requires { (BINS ≤ FRAME_MOST) × (is_frame_size BINS ≡ true) × (SAMPLES ≡ 2 * BINS) }
{
    let spectrum = wire.read::<[f32; BINS]>()?;
    let mut out = [0.0f32; SAMPLES];
    let products = imdct_mirrored_f32(&spectrum, &mut out).unwrap();
    wire.write(out)?;
    wire.write(products)
}

#[tactic(auto, unfolding(cosine_circle::specs::Circle::is_frame_size))]
#[inline(never)]
pub(crate) fn answer(wire: &mut Wire, op: u32) -> io::Result<bool> {
    match op {
        601 => return answer_entry(wire, |at| window().get(at).copied()),
        602 => wire.answer_two(|lm, j| low_overlap_window(&window(), frame_size(lm), j))?,
        603 => return answer_entry(wire, |at| cosines().get(at).copied()),
        // By numbers, as the protocol has these cases, one for each size that `is_frame_size` names; and twice as many samples.
        611 => answer_sum::<120, 240>(wire)?,
        612 => answer_sum::<240, 480>(wire)?,
        613 => answer_sum::<480, 960>(wire)?,
        614 => answer_sum::<960, 1920>(wire)?,
        621 => answer_mirrored::<120, 240>(wire)?,
        622 => answer_mirrored::<240, 480>(wire)?,
        623 => answer_mirrored::<480, 960>(wire)?,
        624 => answer_mirrored::<960, 1920>(wire)?,
        _ => return Ok(false),
    }
    Ok(true)
}
