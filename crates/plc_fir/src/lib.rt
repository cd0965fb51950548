// The all-zero filter.

#![tactic(auto)]

ghost use Rattle.std.specs.Prelude.{◌≡◌, ◌+◌, ◌-◌, ◌≤◌, ◌<◌, length};
ghost use Rattle.loops.specs.Front.{tab};
ghost use Rattle.reply.specs.Reply.{replied, reply_if};
ghost use Rattle.plc_fir.specs.Fir.{celt_fir, celt_fir_from, fir_takes};
ghost use Rattle.plc_pad.specs.Pad.{Remembers, Holds, taps_row};

use plc_pad::{NEWEST, ORDER};
use reply::Refused;

// The samples that are filtered at most.
const LONGEST: usize = history::HALF;

// The samples of buf behind their memory.
fn padded(buf: &[f32], mem: &[f32]) -> [f32; ORDER + LONGEST]
    requires { (length buf.now ≤ LONGEST) × (length mem.now ≤ ORDER) }
    ensures { Remembers result mem.now × Holds result buf.now (length buf.now) }
{
    // The longest that is taken, cut to buf's: there is no heap.
    let mut pad = [0.0f32; ORDER + LONGEST];
    plc_pad::remember(&mut pad, mem).unwrap();
    pad[ORDER..ORDER + buf.len()].copy_from_slice(buf);
    pad
}

// Adds to each of out's samples its taps in order; row by row, so that neighbouring samples run side by side.
// By place: a zip with `iter_mut` tells a proof the items, not the list that they leave.
// The loop within is that of plc_correlate and of plc's autocorrelation too: one function for the three would be public,
// and have to answer a list that is too short.
fn add_taps(out: &mut [f32], num: &[f32], pad: &[f32])
    requires { (length num.now ≤ ORDER) × (length pad.now ≡ length out.old + ORDER) }
    ensures { out.new
        ≡ tab (taps_row num.now pad.now out.old (length num.now)) (length out.old) }
{
    for (j, c) in num.iter().enumerate() {
        for (i, sum) in out.iter_mut().enumerate() {
            *sum += *c * pad[NEWEST + i - j];
        }
    }
}

// Filters from a place of buf on.
fn filter_from(buf: &mut [f32], from: usize, num: &[f32], mem: &[f32])
    requires { (length num.now ≡ length mem.now) × (length mem.now ≤ ORDER) × (length buf.old ≤ LONGEST)
        × (from < length buf.old) }
    ensures { buf.new ≡ celt_fir_from from num.now mem.now buf.old }
{
    let pad = padded(buf, mem);
    let end = buf.len() + ORDER;
    add_taps(&mut buf[from..], num, &pad[from..end]);
}

// Filters from place `from` on; what stands before it is read, so that a part from there on could not be lent alone, and stays.
// Three slices: buf is changed, and taps and memory have owners of their own.
// mem, the inputs before the start with the most recent first, is as long as num, 24 at most, and buf 1,024 at most;
// else refused, and buf stays.
#[tactic(auto, using(std::proofs::lemmas::Bool::Decides::nat_tests), unfolding(reply::specs::Reply::reply_if))]
pub fn celt_fir_from(buf: &mut [f32], from: usize, num: &[f32], mem: &[f32]) -> Result<(), Refused>
    ensures { replied result buf.new
        ≡ reply_if (fir_takes (length num.now) (length mem.now) (length buf.old))
        (celt_fir_from from num.now mem.now buf.old) buf.old }
{
    if num.len() != mem.len() || ORDER < num.len() || LONGEST < buf.len() {
        return Err(Refused);
    }
    if from < buf.len() {
        filter_from(buf, from, num, mem);
    }
    Ok(())
}

// Filters all of buf, with the same refusals.
pub fn celt_fir_inplace(buf: &mut [f32], num: &[f32], mem: &[f32]) -> Result<(), Refused>
    ensures { replied result buf.new
        ≡ reply_if (fir_takes (length num.now) (length mem.now) (length buf.old))
        (celt_fir num.now mem.now buf.old) buf.old }
{
    celt_fir_from(buf, 0, num, mem)
}
