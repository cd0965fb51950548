// Ops 301 to 307: the downsampling and the lag search.
ghost use Rattle.std.specs.Prelude.{◌+◌, ◌≤◌};

use crate::streams::Wire;
use history::{CHANNEL, HALF, SAMPLES, SECOND_END, WHOLE};
use pitch_lag::find_lag;
use plc_best::find_best_pitch;
use plc_downsample::pitch_downsample;
use plc_search::{COMPARED, COMPARED4, PLACES, PLACES4, SAMPLES4, pitch_search};
use std::io;

// The samples of each used channel, without its overlap. Here and below `two`: the operation's number says whether there
// is a second channel, and two functions each would differ in nothing else.
fn read_samples(wire: &mut Wire, two: bool) -> io::Result<[f32; WHOLE]> {
    let mut h: [f32; WHOLE] = wire.read_first(SAMPLES)?;
    if two {
        wire.read_all(&mut h[CHANNEL..SECOND_END])?;
    }
    Ok(h)
}

fn answer_downsampled(wire: &mut Wire, two: bool) -> io::Result<()> {
    let h = read_samples(wire, two)?;
    let mut low = [0.0f32; HALF];
    let second = two.then_some(&h[CHANNEL..SECOND_END]);
    pitch_downsample(&h[..SAMPLES], second, &mut low).unwrap();
    wire.write(low)
}

// The two best of the places of a sweep that compares len samples; y reaches so far beyond the last.
fn answer_best<const SWEEP: usize, const REACHED: usize>(
    wire: &mut Wire,
    len: usize,
) -> io::Result<()>
    requires { (SWEEP ≤ PLACES) × (REACHED ≤ HALF) × (len + SWEEP ≤ REACHED) }
{
    let xcorr = wire.read::<[f32; SWEEP]>()?;
    let y = wire.read::<[f32; REACHED]>()?;
    let (best, second) = find_best_pitch(&xcorr, &y, len).unwrap();
    wire.write_all(&[best, second])
}

fn answer_lag(wire: &mut Wire, two: bool) -> io::Result<()> {
    let h = read_samples(wire, two)?;
    wire.write(find_lag(two, &h).unwrap())
}

#[inline(never)]
pub(crate) fn answer(wire: &mut Wire, op: u32) -> io::Result<bool> {
    match op {
        301 => answer_downsampled(wire, false)?,
        302 => answer_downsampled(wire, true)?,
        303 => answer_best::<PLACES4, SAMPLES4>(wire, COMPARED4)?,
        304 => answer_best::<PLACES, HALF>(wire, COMPARED)?,
        305 => wire.answer(|y: [f32; HALF]| pitch_search(&y))?,
        306 => answer_lag(wire, false)?,
        307 => answer_lag(wire, true)?,
        _ => return Ok(false),
    }
    Ok(true)
}
