// Op 801: one channel's pitch loss.
use crate::streams::Wire;
use pitch_loss::{Pitch, pitch_loss};
use pitch_predictor::fit_predictor;
use plc_pad::ORDER;
use post_filter::Filter;
use settings::Settings;
use settings::checks::BANDS;
use std::io;

// Gain, period and tapset.
fn read_filter(wire: &mut Wire) -> io::Result<Filter> {
    Ok(Filter {
        gain: wire.read()?,
        period: wire.read()?,
        tapset: wire.read()?,
    })
}

fn mono(lm: u32) -> Settings {
    Settings {
        lm,
        channels: 1,
        start: 0,
        end: BANDS,
        downsample: 1,
    }
}

// Five words ahead of the floats: first, lag and the filter.
fn read_pitch(wire: &mut Wire) -> io::Result<Pitch> {
    let first = wire.read::<u32>()? == 1;
    let lag = wire.read()?;
    let filter = read_filter(wire)?;
    let predictor = wire.read_first(ORDER)?;
    Ok(Pitch {
        lag,
        first,
        predictor,
        filter,
    })
}

// A first loss fits its predictor from the history; a later one goes by what it was given. A refused loss leaves the history as
// it is.
fn answer_loss(wire: &mut Wire) -> io::Result<()> {
    let k = mono(wire.read()?);
    let mut pitch = read_pitch(wire)?;
    let mut h = wire.read_channel()?;
    if pitch.first {
        pitch.predictor = fit_predictor(false, &h, pitch.predictor).unwrap();
    }
    pitch_loss(k, &mut h, pitch).ok();
    wire.write_channel(&h)?;
    wire.write_all(&pitch.predictor[..ORDER])
}

#[inline(never)]
pub(crate) fn answer(wire: &mut Wire, op: u32) -> io::Result<bool> {
    match op {
        801 => answer_loss(wire)?,
        _ => return Ok(false),
    }
    Ok(true)
}
