// Ops 901 to 903: steps of the noise path. A step that is refused leaves the seed as it is.
use crate::streams::Wire;
use custom_mode::standard::{FRAME_MOST, MAX_BANDS};
use history::OVERLAP;
use noise_block::{BLOCK_MOST, noise_block};
use noise_energies::lower_energies;
use noise_loss::noise_loss;
use noise_spectrum::Span;
use settings::Settings;
use sizes::frame_size;
use std::io;

// The longest block, as the answer has it, of which a case fills the first n + 120: there is no heap.
fn answer_block(wire: &mut Wire) -> io::Result<()> {
    let lm: u32 = wire.read()?;
    let span = Span {
        start: wire.read()?,
        end: wire.read()?,
        downsample: wire.read()?,
    };
    let seed = wire.read()?;
    let energies = wire.read::<[f32; MAX_BANDS]>()?;
    let mut block = [0.0f32; BLOCK_MOST];
    // The `min` cuts nothing, as an lm above 3 counts as 3: it tells the check so.
    let n = FRAME_MOST.min(frame_size(lm));
    let after = noise_block(
        &mut block[..n + OVERLAP],
        // By `as`: std has no `From` of a word to usize.
        lm as usize,
        span,
        seed,
        &energies,
    );
    wire.write(block)?;
    wire.write(after.unwrap_or(seed))
}

fn answer_channel(wire: &mut Wire) -> io::Result<()> {
    let k = Settings {
        lm: wire.read()?,
        channels: 1,
        start: wire.read()?,
        end: wire.read()?,
        downsample: wire.read()?,
    };
    let seed = wire.read()?;
    let energies = wire.read_first(MAX_BANDS)?;
    let mut h = wire.read_channel()?;
    let after = noise_loss(k, &mut h, seed, energies);
    wire.write_channel(&h)?;
    wire.write(after.unwrap_or(seed))
}

// Four words ahead of the energies: channels, start, end and loss count.
fn answer_energies(wire: &mut Wire) -> io::Result<()> {
    let channels = wire.read()?;
    let start = wire.read()?;
    let end = wire.read()?;
    let count = wire.read()?;
    let coarse = wire.read()?;
    wire.write(lower_energies(coarse, channels, start, end, count))
}

#[inline(never)]
pub(crate) fn answer(wire: &mut Wire, op: u32) -> io::Result<bool> {
    match op {
        901 => answer_block(wire)?,
        902 => answer_channel(wire)?,
        903 => answer_energies(wire)?,
        _ => return Ok(false),
    }
    Ok(true)
}
