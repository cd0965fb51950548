// Op 701: the de-emphasis of one frame.
use crate::streams::Wire;
use custom_mode::standard::FRAME_MOST;
use deemphasis_mono::deemphasis_mono;
use deemphasis_stereo::deemphasis_stereo;
use sizes::frame_size;
use std::io;

// Three words ahead of the floats: lm, channels and downsample. A refused frame keeps its memories. Lists for the longest frame,
// as the case has them, and PCM for two such channels: there is no heap.
fn answer_frame(wire: &mut Wire) -> io::Result<()> {
    // The `min` cuts nothing, as an lm above 3 counts as 3: it tells the check so.
    let n = FRAME_MOST.min(frame_size(wire.read()?));
    let channels: u32 = wire.read()?;
    let downsample = wire.read()?;
    let memories = wire.read()?;
    let first = wire.read::<[f32; FRAME_MOST]>()?;
    let second = wire.read::<[f32; FRAME_MOST]>()?;
    let mut pcm = [0.0f32; 2 * FRAME_MOST];
    let after = if channels == 2 {
        deemphasis_stereo(&first[..n], &second[..n], memories, downsample, &mut pcm)
    } else {
        deemphasis_mono(&first[..n], memories, downsample, &mut pcm)
    };
    wire.write(pcm)?;
    wire.write(after.unwrap_or(memories))
}

#[inline(never)]
pub(crate) fn answer(wire: &mut Wire, op: u32) -> io::Result<bool> {
    match op {
        701 => answer_frame(wire)?,
        _ => return Ok(false),
    }
    Ok(true)
}
