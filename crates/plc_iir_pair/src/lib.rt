// The all-pole filter of order 24 for two channels in one loop.

#![tactic(auto)]

ghost use Rattle.std.specs.Prelude.{◌≡◌, length};
ghost use Rattle.reply.specs.Reply.{replied, reply_if};
ghost use Rattle.plc_iir.specs.Iir.{celt_iir};
ghost use Rattle.plc_iir_pair.specs.Pair.{channels, iir_pair_takes};

use plc_iir::LONGEST;
use plc_pad::{ORDER, less_taps};
use reply::Refused;

// Two channels of one length side by side, not one after the other: the second runs in the time of the first.
// Buffer, taps and memory apart: the buffers are changed, and the rest has owners of its own.
// Other lengths are refused, and both buffers stay.
#[tactic(auto, using(std::proofs::lemmas::Bool::Decides::nat_tests), unfolding(reply::specs::Reply::reply_if))]
pub fn celt_iir_pair(
    a: &mut [f32],
    b: &mut [f32],
    den_a: &[f32; ORDER],
    den_b: &[f32; ORDER],
    mem_a: &[f32; ORDER],
    mem_b: &[f32; ORDER],
) -> Result<(), Refused>
    ensures { replied result (channels a.new b.new)
        ≡ reply_if (iir_pair_takes (length a.old) (length b.old))
        (channels (celt_iir den_a.now mem_a.now a.old) (celt_iir den_b.now mem_b.now b.old))
        (channels a.old b.old) }
{
    if a.len() != b.len() || LONGEST < a.len() {
        return Err(Refused);
    }
    // The longest that is taken, cut to the channels': there is no heap.
    let mut y = [0.0f32; ORDER + LONGEST];
    let mut z = [0.0f32; ORDER + LONGEST];
    plc_pad::remember(&mut y, mem_a).unwrap();
    plc_pad::remember(&mut z, mem_b).unwrap();
    // By place: four lists in step, and each turn reads the 24 places before the one that it writes.
    for i in 0..a.len() {
        let sum_a = less_taps(den_a, y[i..i + ORDER].try_into().unwrap(), a[i]);
        let sum_b = less_taps(den_b, z[i..i + ORDER].try_into().unwrap(), b[i]);
        y[ORDER + i] = sum_a;
        z[ORDER + i] = sum_b;
        a[i] = sum_a;
        b[i] = sum_b;
    }
    Ok(())
}
