// The tent's record: a state and its history as 4,497 little-endian words. Read here; `put_record` writes it.

#![tactic(auto)]

ghost use Rattle.std.specs.Prelude.{◌≡◌};
ghost use Rattle.record.specs.Record.{state_of};

use state::State;
use state_words::{WORDS, from_words};
use std::array;
use words::word_at;

pub const BYTES: usize = 4 * (WORDS + history::WHOLE);

// The number of the history's first word: it follows the state's.
pub const HISTORY: usize = WORDS;

// The state of a record; of other lengths too, since past b's end a word is 0. Its words as an array at once: `values_at` would
// fill one made before.
pub fn read_state(b: &[u8]) -> State
    ensures { result ≡ state_of b.now }
{
    from_words(&array::from_fn(|k| word_at(b, k)))
}
