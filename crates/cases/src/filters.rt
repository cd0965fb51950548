// Ops 201 to 208: sums over a signal, the predictor, the two filters.
ghost use Rattle.std.specs.Prelude.{◌≡◌, ◌+◌, ◌≤◌};

use crate::streams::Wire;
use history::{HALF, OVERLAP};
use plc::autocorr::{WHITENING, celt_autocorr, celt_autocorr_windowed};
use plc_fir::celt_fir_inplace;
use plc_iir::{LONGEST, celt_iir_inplace};
use plc_lpc::celt_lpc;
use plc_pad::ORDER;
use std::io;

// A predictor has one coefficient less than it has correlations.
const CORRELATIONS: usize = ORDER + 1;

const WHITENED: usize = WHITENING + 1;

// The predictor of an order from one correlation more. Both sizes: no array length is computed from a const parameter.
// Beside a frame's cosine sum: what a step asks of its sizes is required here, and one function for both would have to require it of
// any step.
fn answer_lpc<const TAPS: usize, const LAGS: usize>(wire: &mut Wire) -> io::Result<()>
    requires { (TAPS ≤ ORDER) × (LAGS ≡ TAPS + 1) }
{
    let ac = wire.read::<[f32; LAGS]>()?;
    let mut coefficients = [0.0f32; TAPS];
    celt_lpc(&mut coefficients, &ac).unwrap();
    wire.write(coefficients)
}

fn answer_fir<const TAPS: usize>(wire: &mut Wire) -> io::Result<()>
    requires { TAPS ≤ ORDER }
{
    let mut x = wire.read::<[f32; HALF]>()?;
    let num = wire.read::<[f32; TAPS]>()?;
    let mem = wire.read::<[f32; TAPS]>()?;
    celt_fir_inplace(&mut x, &num, &mem).unwrap();
    wire.write(x)
}

// Filters the first n samples; the rest stays. A list of the longest, as the case has it: there is no heap.
fn answer_iir(wire: &mut Wire) -> io::Result<()> {
    let n = LONGEST.min(wire.read()?);
    let mut x = wire.read::<[f32; LONGEST]>()?;
    let den = wire.read()?;
    let mem = wire.read()?;
    celt_iir_inplace(&mut x[..n], &den, &mem).unwrap();
    wire.write(x)
}

#[inline(never)]
pub(crate) fn answer(wire: &mut Wire, op: u32) -> io::Result<bool> {
    match op {
        201 => wire.answer(|x: [f32; HALF]| celt_autocorr(&x))?,
        202 => wire.answer_two(|x: [f32; HALF], w: [f32; OVERLAP]| celt_autocorr_windowed(&x, &w))?,
        203 => answer_lpc::<ORDER, CORRELATIONS>(wire)?,
        204 => answer_lpc::<WHITENING, WHITENED>(wire)?,
        205 => answer_fir::<ORDER>(wire)?,
        206 => answer_fir::<WHITENING>(wire)?,
        // the whitening's other filter, of one tap
        207 => answer_fir::<1>(wire)?,
        208 => answer_iir(wire)?,
        _ => return Ok(false),
    }
    Ok(true)
}
