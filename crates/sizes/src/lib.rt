// What follows from the settings of a stream: the block factor, the frame, the samples of an answer. Functions, and no methods of
// `Settings`, for the reason that the checks in settings give.

#![tactic(auto)]

ghost use Rattle.std.specs.Prelude.{◌≡◌, ◌*◌};
ghost use Rattle.settings.specs.Settings.{block_factor, needed};

use custom_mode::standard::SHORT_BLOCK;
use settings::Settings;
use settings::checks::{LM_MOST, settings_pass};

// The block factor m; an lm above 3 counts as 3, here and in `frame_size`, since no public function asks anything of its callers.
pub fn block_factor(lm: u32) -> usize
    ensures { result ≡ block_factor lm }
{
    1usize << lm.min(LM_MOST)
}

// The frame N.
pub fn frame_size(lm: u32) -> usize
    ensures { result ≡ 120 * block_factor lm }
{
    SHORT_BLOCK * block_factor(lm)
}

// The samples that an accepted call writes; 0 for settings that are refused. A number for any settings, as its definition has it:
// who asks has had the refusal from the checks, and would take the number out of an `Option` that cannot be empty. By `as`: std has
// no `From` of a word to usize.
pub fn needed_samples(k: Settings) -> usize
    ensures { result ≡ needed k }
{
    if settings_pass(k) {
        k.channels as usize * (frame_size(k.lm) / k.downsample as usize)
    } else {
        0
    }
}
