// A state's words, written.

#![tactic(auto)]

ghost use Rattle.std.specs.Prelude.{◌≡◌, ◌+◌, ◌++◌, length};
ghost use Rattle.state_words.specs.Words.{head_words, float_words, state_words};

use float_bits::words::Word;
use state::State;
use state_words::{COARSE, MEMORIES, WORDS};

// The words ahead of the energies.
#[tactic(auto, unfolding(state_words::specs::Words::head_words))]
fn head_words(s: State) -> [u32; COARSE]
    ensures { result ≡ head_words s }
{
    [
        s.settings.lm,
        s.settings.channels,
        s.settings.start,
        s.settings.end,
        s.settings.downsample,
        s.loss_count,
        s.seed,
        s.lag,
        s.filter.period,
        s.filter.gain.to_word(),
        s.filter.tapset,
    ]
}

// By number, in place: of a zip with `iter_mut` the check knows the items alone, not what w becomes.
// Arrays made by `from_fn` and copied in take 200 ns for a state read and written, where this takes 170. `put_words` does it in bytes.
fn put_floats(w: &mut [u32], xs: &[f32])
    requires { length w.old ≡ length xs.now }
    ensures { w.new ≡ float_words xs.now }
{
    for (k, x) in xs.iter().enumerate() {
        w[k] = x.to_word();
    }
}

// The words of two lists, one behind the other, in a part of the state's: no type says a length N + M.
fn put_both(w: &mut [u32], x: &[f32], y: &[f32])
    requires { length w.old ≡ length x.now + length y.now }
    ensures { w.new ≡ float_words x.now ++ float_words y.now }
{
    let (first, second) = w.split_at_mut(x.len());
    put_floats(first, x);
    put_floats(second, y);
}

// Of a borrowed array: the check loses a local one's length when two parts of it have been lent and come back.
fn put_state(w: &mut [u32; WORDS], s: State)
    ensures { w.new ≡ state_words s }
{
    w[..COARSE].copy_from_slice(&head_words(s));
    put_both(&mut w[COARSE..MEMORIES], &s.coarse, &s.background);
    put_both(&mut w[MEMORIES..], &s.memories, &s.predictor);
}

// The words of a state. No `From`: neither type is of this crate, and `state` knows nothing of words.
pub fn to_words(s: State) -> [u32; WORDS]
    ensures { result ≡ state_words s }
{
    let mut w = [0; WORDS];
    put_state(&mut w, s);
    w
}
