// Ops 401 and 402: the draw and the renormalisation.
use crate::streams::Wire;
use band_quant::renormalise_vector;
use draw::celt_lcg_rand;
use std::io;

// The bins of the widest band, the last of the longest frame: 8 times 22.
const WIDEST: usize = 176;

// A list for the widest band, as the case has it, of which the first bins are used: there is no heap.
fn answer_band(wire: &mut Wire) -> io::Result<()> {
    let width = WIDEST.min(wire.read()?);
    let mut x = wire.read::<[f32; WIDEST]>()?;
    renormalise_vector(&mut x[..width], 1.0);
    wire.write(x)
}

#[inline(never)]
pub(crate) fn answer(wire: &mut Wire, op: u32) -> io::Result<bool> {
    match op {
        401 => wire.answer(celt_lcg_rand)?,
        402 => answer_band(wire)?,
        _ => return Ok(false),
    }
    Ok(true)
}
