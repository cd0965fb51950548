// The all-pole filter of order 24.

#![tactic(auto)]

ghost use Rattle.std.specs.Prelude.{◌≡◌, length};
ghost use Rattle.reply.specs.Reply.{replied, reply_if};
ghost use Rattle.plc_iir.specs.Iir.{celt_iir, iir_takes};

use history::{EXTRA, LONGEST_FRAME};
use plc_pad::{ORDER, less_taps};
use reply::Refused;

// The samples that are filtered at most: a frame, and what is extrapolated beyond it.
pub const LONGEST: usize = LONGEST_FRAME + EXTRA;

// Filters buf; mem has the outputs before its start, the most recent first. More than 1,200 samples are refused, and buf stays.
pub fn celt_iir_inplace(
    buf: &mut [f32],
    den: &[f32; ORDER],
    mem: &[f32; ORDER],
) -> Result<(), Refused>
    ensures { replied result buf.new
        ≡ reply_if (iir_takes (length buf.old)) (celt_iir den.now mem.now buf.old) buf.old }
{
    if LONGEST < buf.len() {
        return Err(Refused);
    }
    // The longest that is taken, cut to buf's: there is no heap.
    let mut y = [0.0f32; ORDER + LONGEST];
    plc_pad::remember(&mut y, mem).unwrap();
    // By place: each turn reads the 24 places before the one that it writes.
    for (i, x) in buf.iter_mut().enumerate() {
        let sum = less_taps(den, y[i..i + ORDER].try_into().unwrap(), *x);
        y[ORDER + i] = sum;
        *x = sum;
    }
    Ok(())
}
