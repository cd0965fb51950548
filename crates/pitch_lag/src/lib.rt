// The lag that a first pitch loss finds in a whole history.

#![tactic(auto)]

ghost use Rattle.std.specs.Prelude.{◌≡◌, eqb, length};
ghost use Rattle.reply.specs.Reply.{ok_if};
ghost use Rattle.history.specs.History.{whole};
ghost use Rattle.pitch_lag.specs.Lag.{low_passed, lag_of};

use history::{CHANNEL, HALF, LAG_MOST, SAMPLES, SECOND_END, WHOLE};
use plc_downsample::pitch_downsample;
use plc_search::pitch_search;
use reply::Refused;

// What the search reads: the used channels' 2,048 samples at half the rate.
// Here and below `two` answers a question, `Settings::is_stereo`: a bool, since this step is handed no settings.
fn low_pass(two: bool, history: &[f32; WHOLE]) -> [f32; HALF]
    ensures { result ≡ low_passed two history.now }
{
    let mut low = [0.0f32; HALF];
    let second = two.then_some(&history[CHANNEL..SECOND_END]);
    pitch_downsample(&history[..SAMPLES], second, &mut low).unwrap();
    low
}

// The lag of a history, of two channels or one. Refused: a history not of 4,336 samples.
pub fn find_lag(two: bool, history: &[f32]) -> Result<u32, Refused>
    ensures { result ≡ ok_if (eqb (length history.now) whole) (lag_of two history.now) }
{
    let history = <&[f32; WHOLE]>::try_from(history)?;
    let low = low_pass(two, history);
    // `as`: the library has no `From` of a usize for u32; a lag is 720 at most.
    Ok((LAG_MOST - pitch_search(&low)) as u32)
}
