// One lost frame on a caller's own memory: what a decoder in another language calls.

#![tactic(auto)]

ghost use Rattle.std.specs.Prelude.{◌≡◌};
ghost use Rattle.direct.specs.Direct.{called, loss_in};

use put_state_words::to_words;
use state::report;
use state_words::{WORDS, from_words};

// Conceals one lost frame: `state` is the words of a state in document 01's order, `history` 4,336 samples, and `answer`
// becomes number, kind and sample count. The number is returned too; with any but 0 state, history and PCM stay. Numbers and
// words, since this is what C is handed. Not one with `answer`'s step: of a record's bytes the words are read and written otherwise.
pub fn decode_lost(
    state: &mut [u32; WORDS],
    history: &mut [f32],
    pcm: &mut [f32],
    answer: &mut [u32; 3],
) -> u32
    ensures { called result answer.new state.new pcm.new history.new
        ≡ loss_in state.old history.old pcm.old }
{
    let call = ref_decode::decode_lost(from_words(state), history, pcm);
    *answer = report(&call);
    if let Ok(a) = call {
        *state = to_words(a.state);
    }
    answer[0]
}
