// Calls on lent buffers.
use float_bits::words::{Word, wrapping_mul_u32};
use history::WHOLE;
use put_record::write_record;
use put_state_words::to_words;
use record::{BYTES, HISTORY, read_state};
use state::State;
use state_words::from_words;
use words::values_at;

// The longest history that a call is lent: one sample too many.
const LENT_MOST: usize = WHOLE + 1;

// A decoder's state and the history that its calls are lent.
// The PCM buffer stands beside it: behind a reference the check lends a part of one field, and no other field with it.
#[derive(Drop)]
pub(crate) struct Decoder {
    pub state: State,
    history: [f32; LENT_MOST],
}

impl Decoder {
    // As a record has it.
    pub(crate) fn new(b: &[u8; BYTES]) -> Decoder {
        let mut history = [0.0f32; LENT_MOST];
        values_at(b, HISTORY, &mut history);
        Decoder {
            state: read_state(b),
            history,
        }
    }

    // The record of the state and the history.
    pub(crate) fn record(&self) -> [u8; BYTES] {
        let mut b = [0u8; BYTES];
        write_record(&mut b, self.state, &self.history[..WHOLE]).unwrap();
        b
    }

    // One call, lent the first n samples of the history and a PCM buffer, which is 1 throughout before it: number, kind and sample
    // count. The history by a count: a length that is refused is what the case asks for.
    pub(crate) fn call(&mut self, n: usize, pcm: &mut [f32]) -> [u32; 3] {
        pcm.fill(1.0);
        let mut w = to_words(self.state);
        let mut answer = [0u32; 3];
        let end = n.min(LENT_MOST);
        direct::decode_lost(&mut w, &mut self.history[..end], pcm, &mut answer);
        self.state = from_words(&w);
        answer
    }
}

// A PCM buffer in one word.
pub(crate) fn digest(pcm: &[f32]) -> u32 {
    pcm.iter().fold(1u32, |h, x| {
        // The protocol's number; that the draw has it too is chance.
        wrapping_mul_u32(h, 1_664_525).wrapping_add(x.to_word())
    })
}
