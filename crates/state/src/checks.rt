// The states and buffers that are refused: each check passes, or refuses for its own reason.
// Functions, and no methods of `State`: under these names the definitions have them, and promises, edits and proofs cite them.
ghost use Rattle.std.specs.Prelude.{◌≡◌};
ghost use Rattle.settings.specs.Number.{number_in};
ghost use Rattle.state.specs.Refusal.{check_lag, refuses_state, refusal};

use crate::State;
use post_filter::filter_fits;
use settings::Refusal;
use settings::checks::{check_settings, is_within, unless};
use sizes::needed_samples;

// A loss count that cannot rise.
const COUNT_FULL: u32 = u32::MAX;

// The last loss count that goes by pitch.
pub const PITCH_LAST: u32 = 4;

// The shortest lag and the longest: the history's own numbers, as wide as a state's words. By `as`: std has no `From` of usize to
// u32, and a constant calls no `try_from`.
pub const LAG_LEAST: u32 = history::LAG_LEAST as u32;

pub const LAG_MOST: u32 = history::LAG_MOST as u32;

// A carried lag is read where start is 0 and the loss count 1 to 4.
fn check_lag(start: u32, c: u32, lag: u32) -> Result<(), Refusal>
    ensures { number_in result ≡ check_lag start c lag }
{
    if start == 0 && is_within(1, PITCH_LAST, c) {
        unless(is_within(LAG_LEAST, LAG_MOST, lag), Refusal::BadLag)?;
    }
    Ok(())
}

// A state and its history's length. By lengths, here and where the PCM buffer's is asked too: no sample of either is read.
#[tactic(auto, using(settings::proofs::Table::exit_number), unfolding(crate::specs::Refusal::refuses_state, settings::specs::Number::or_else))]
pub fn check_state(s: State, n: usize) -> Result<(), Refusal>
    ensures { number_in result ≡ refuses_state s n }
{
    check_settings(s.settings)?;
    unless(s.loss_count != COUNT_FULL, Refusal::CountFull)?;
    check_lag(s.settings.start, s.loss_count, s.lag)?;
    unless(filter_fits(s.filter), Refusal::BadFilter)?;
    unless(n == history::WHOLE, Refusal::BadHistory)
}

// The first refusal that applies to a state, its history's length and a PCM buffer's length.
#[tactic(auto, using(settings::proofs::Table::exit_number), unfolding(crate::specs::Refusal::refusal, settings::specs::Number::or_else))]
pub fn first_refusal(s: State, n: usize, p: usize) -> Result<(), Refusal>
    ensures { number_in result ≡ refusal s n p }
{
    check_state(s, n)?;
    unless(needed_samples(s.settings) <= p, Refusal::ShortPcm)
}
