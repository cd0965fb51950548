// Ops 101 to 108: the float helpers.
use crate::streams::Wire;
use float_bits::formats::f32_to_f64;
use float_bits::words::{noise_value, wrapping_mul_u32};
use float_extremes::{max_f32, min_f32};
use float_narrow::f64_to_f32;
use float_root::sqrt_f32;
use std::io;

#[inline(never)]
pub(crate) fn answer(wire: &mut Wire, op: u32) -> io::Result<bool> {
    match op {
        101 => wire.answer_two(min_f32)?,
        102 => wire.answer_two(max_f32)?,
        103 => wire.answer(sqrt_f32)?,
        104 => wire.answer(f64_to_f32)?,
        105 => wire.answer(f32_to_f64)?,
        106 => wire.answer(|x: f32| x)?,
        107 => wire.answer(noise_value)?,
        108 => wire.answer_two(wrapping_mul_u32)?,
        // not listed: two words are taken with it, as compare/PROTOCOL.md says
        _ => {
            wire.read::<u32>()?;
            wire.read::<u32>()?;
            return Ok(false);
        }
    }
    Ok(true)
}
