// Ops 501 to 505: the band gain and the standard mode.
use crate::streams::Wire;
use band_gain::band_gain;
use custom_mode::rate::resampling_factor;
use custom_mode::standard::{band_edge, mean_energy};
use powers::power_at;
use std::io;

#[inline(never)]
pub(crate) fn answer(wire: &mut Wire, op: u32) -> io::Result<bool> {
    match op {
        501 => wire.answer_two(band_gain)?,
        // 0 for none
        502 => wire.answer(|rate: u32| resampling_factor(rate).unwrap_or(0))?,
        503 => wire.answer(|i: u32| power_at(u64::from(i)))?,
        504 => wire.answer(mean_energy)?,
        505 => wire.answer(band_edge)?,
        // not listed: a word is taken with it, as compare/PROTOCOL.md says
        _ => {
            wire.read::<u32>()?;
            return Ok(false);
        }
    }
    Ok(true)
}
