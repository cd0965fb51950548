// A state as 161 words of 32 bits in memory: a caller's struct, read.
// `put_state_words` writes it; the record has the same words as bytes.

#![tactic(auto)]

ghost use Rattle.std.specs.Prelude.{◌≡◌, ◌+◌, ◌≤◌};
ghost use Rattle.state_words.specs.Words.{state_length, floats_by, word_in, state_in};

use custom_mode::standard::ENERGIES;
use float_bits::words::Word;
use plc_pad::COEFFICIENTS;
use post_filter::Filter;
use settings::Settings;
use state::State;
use std::array;

// Where each part begins: the number of its first word. Ahead of the energies five words of settings, loss count, seed, lag, and
// three of the filter.
pub const COARSE: usize = 11;

pub const BACKGROUND: usize = COARSE + ENERGIES;

pub const MEMORIES: usize = BACKGROUND + ENERGIES;

// One memory for each channel.
pub const PREDICTOR: usize = MEMORIES + 2;

// The words of a state. The history follows them in a record.
pub const WORDS: usize = PREDICTOR + COEFFICIENTS;

// The floats of the words from the one numbered i on: an array at once, where the record's bytes, `words`, are read into what is lent.
fn floats_in<const N: usize>(w: &[u32; WORDS], i: usize) -> [f32; N]
    requires { i + N ≤ state_length }
    ensures { result ≡ floats_by (word_in w.now) i N }
{
    array::from_fn(|k| f32::from_word(w[i + k]))
}

// The state of a caller's words. No `From`: neither type is of this crate, and `state` knows nothing of words.
pub fn from_words(w: &[u32; WORDS]) -> State
    ensures { result ≡ state_in w.now }
{
    let [
        lm,
        channels,
        start,
        end,
        downsample,
        loss_count,
        seed,
        lag,
        period,
        gain,
        tapset,
        ..
    ] = *w;
    State {
        settings: Settings {
            lm,
            channels,
            start,
            end,
            downsample,
        },
        loss_count,
        seed,
        lag,
        filter: Filter {
            period,
            gain: f32::from_word(gain),
            tapset,
        },
        coarse: floats_in(w, COARSE),
        background: floats_in(w, BACKGROUND),
        memories: floats_in(w, MEMORIES),
        predictor: floats_in(w, PREDICTOR),
    }
}
