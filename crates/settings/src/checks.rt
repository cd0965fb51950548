// The settings that are refused: each check passes, or refuses for its own reason.
// Functions, and no methods of `Settings`: under these names the definitions have them, and promises, edits and proofs cite them.
ghost use Rattle.std.specs.Prelude.{◌≡◌, cond, eqb};
ghost use Rattle.settings.specs.Number.{number_of, number_in, within};
ghost use Rattle.settings.specs.Settings.{check_end, check_downsample, check_settings};

use crate::{Refusal, Settings};

// The mode's own numbers as u32, the width of the settings' words with which they are compared. By `as`: std has no `From` of
// usize to u32, and a constant calls no `try_from`.
pub const LM_MOST: u32 = custom_mode::standard::LM_MOST as u32;

const CHANNELS_MOST: u32 = custom_mode::standard::CHANNELS as u32;

pub const BANDS: u32 = custom_mode::standard::BANDS as u32;

// Refused with e where a check does not pass.
pub fn unless(passes: bool, e: Refusal) -> Result<(), Refusal>
    ensures { number_in result ≡ cond passes 0 (number_of e) }
{
    passes.then_some(()).ok_or(e)
}

// Whether x lies from lo to hi: one library call, beside the definitions' `within`. What it promised stays, and is all that the
// checks' proofs cite.
pub fn is_within(lo: u32, hi: u32, x: u32) -> bool
    ensures { result ≡ within lo hi x }
{
    (lo..=hi).contains(&x)
}

fn check_end(start: u32, end: u32) -> Result<(), Refusal>
    ensures { number_in result ≡ check_end start end }
{
    unless(start < end && end <= BANDS, Refusal::BadEnd)
}

fn check_downsample(d: u32) -> Result<(), Refusal>
    ensures { number_in result ≡ check_downsample d }
{
    unless(d == 6 || is_within(1, 4, d), Refusal::BadDownsample)
}

#[tactic(auto, using(crate::proofs::Table::exit_number), unfolding(crate::specs::Settings::check_settings, crate::specs::Number::or_else))]
pub fn check_settings(k: Settings) -> Result<(), Refusal>
    ensures { number_in result ≡ check_settings k }
{
    unless(k.lm <= LM_MOST, Refusal::BadLm)?;
    unless(
        is_within(1, CHANNELS_MOST, k.channels),
        Refusal::BadChannels,
    )?;
    unless(k.start < BANDS, Refusal::BadStart)?;
    check_end(k.start, k.end)?;
    check_downsample(k.downsample)
}

pub fn settings_pass(k: Settings) -> bool
    ensures { result ≡ eqb (check_settings k) 0 }
{
    check_settings(k).is_ok()
}
