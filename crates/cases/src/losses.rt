// Ops 1001 to 1003: whole losses and runs of them. A state and its history come and leave as a record.
use crate::calls::{Decoder, digest};
use crate::streams::Wire;
use history::WHOLE;
use record::BYTES;
use state_words::COARSE;
use std::io;

// The longest PCM buffer. Each case has a buffer of this length, of which a call is lent the front: there is no heap.
const PCM: usize = 2000;

// The most calls of a run: a list of so many lengths, as the case has it, of which the first n are used.
const CALLS: usize = 16;

// A record of which the first n bytes come; the rest is 0.
fn read_decoder(wire: &mut Wire, n: usize) -> io::Result<Decoder> {
    let mut b = [0u8; BYTES];
    wire.fill(&mut b[..n.min(BYTES)])?;
    Ok(Decoder::new(&b))
}

fn answer_call(wire: &mut Wire) -> io::Result<()> {
    let p = PCM.min(wire.read()?);
    let n = wire.read()?;
    let mut decoder = read_decoder(wire, BYTES)?;
    let mut pcm = [0.0f32; PCM];
    wire.write_all(&decoder.call(n, &mut pcm[..p]))?;
    wire.write(pcm)?;
    wire.write_bytes(&decoder.record())
}

// Four words for each call, each on what the one before left; 0 past the n-th.
fn answer_run(wire: &mut Wire) -> io::Result<()> {
    let n = CALLS.min(wire.read()?);
    let mut lengths = [0usize; CALLS];
    wire.read_all(&mut lengths)?;
    let mut decoder = read_decoder(wire, BYTES)?;
    let mut pcm = [0.0f32; PCM];
    for p in &lengths[..n] {
        let lent = &mut pcm[..PCM.min(*p)];
        wire.write_all(&decoder.call(WHOLE, lent))?;
        wire.write(digest(lent))?;
    }
    wire.write_all(&[0u32; 4 * CALLS][4 * n..])?;
    wire.write_bytes(&decoder.record())
}

// The words before the energies come; all past them are 0.
fn answer_silent(wire: &mut Wire) -> io::Result<()> {
    let p = PCM.min(wire.read()?);
    let n = wire.read()?;
    let mut decoder = read_decoder(wire, 4 * COARSE)?;
    wire.write_all(&decoder.call(n, &mut [0.0f32; PCM][..p]))?;
    let s = decoder.state;
    wire.write_all(&[s.loss_count, s.seed, s.lag])
}

#[inline(never)]
pub(crate) fn answer(wire: &mut Wire, op: u32) -> io::Result<bool> {
    match op {
        1001 => answer_call(wire)?,
        1002 => answer_run(wire)?,
        1003 => answer_silent(wire)?,
        _ => return Ok(false),
    }
    Ok(true)
}
