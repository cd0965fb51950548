// The settings of a stream, which of them are refused, and what a call is refused for.

#![tactic(auto)]

ghost use Rattle.std.specs.Prelude.{◌≡◌};
ghost use Rattle.settings.specs.Number.{number_of};
ghost use Rattle.settings.specs.Settings.{stereo};

use std::error::Error;
use std::fmt;

pub mod checks;

// The settings of a stream; the frame is 120 * 2 ^ lm samples long. Numbers, as a state's words have them: any can come, and the
// checks refuse those that mean nothing.
#[derive(Clone, Copy, Debug, PartialEq, Eq)]
pub struct Settings {
    pub lm: u32,
    pub channels: u32,
    pub start: u32,
    pub end: u32,
    pub downsample: u32,
}

impl Settings {
    // Whether the second channel is used.
    #[tactic(auto, unfolding(crate::specs::Settings::stereo))]
    pub fn is_stereo(self) -> bool
        ensures { result ≡ stereo self }
    {
        self.channels == 2
    }
}

// Why a call is refused.
#[derive(Clone, Copy, Debug, PartialEq, Eq)]
pub enum Refusal {
    BadLm,
    BadChannels,
    BadStart,
    BadEnd,
    BadDownsample,
    CountFull,
    BadLag,
    BadFilter,
    BadHistory,
    ShortPcm,
}

impl fmt::Display for Refusal {
    fn fmt<W: fmt::Write>(&self, f: &mut fmt::Formatter<W>) -> fmt::Result {
        f.write_str(match self {
            Refusal::BadLm => "lm above 3",
            Refusal::BadChannels => "channels not 1 or 2",
            Refusal::BadStart => "start above 20",
            Refusal::BadEnd => "end not above start, or above 21",
            Refusal::BadDownsample => "downsample not 1, 2, 3, 4 or 6",
            Refusal::CountFull => "loss count 4,294,967,295",
            Refusal::BadLag => "start 0, loss count 1 to 4, lag outside 102 to 720",
            Refusal::BadFilter => "filter period outside 15 to 1,022, or tapset above 2",
            Refusal::BadHistory => "history not 4,336 samples",
            Refusal::ShortPcm => "PCM buffer shorter than needed",
        })
    }
}

impl Error for Refusal {}

// Document 01's number.
impl From<Refusal> for u32 {
    ghost from_gives = { λ e n. n ≡ number_of e };

    fn from(e: Refusal) -> u32 {
        match e {
            Refusal::BadLm => 1,
            Refusal::BadChannels => 2,
            Refusal::BadStart => 3,
            Refusal::BadEnd => 4,
            Refusal::BadDownsample => 5,
            Refusal::CountFull => 6,
            Refusal::BadLag => 7,
            Refusal::BadFilter => 8,
            Refusal::BadHistory => 9,
            Refusal::ShortPcm => 10,
        }
    }
}
