// The functions that programs in other languages link: `include/vikkozhan.h` declares them, so numbers stand for kinds, a count
// beside a buffer, and 161 words for a state: by number, as the header writes it.

#![tactic(auto)]

ghost use Rattle.std.specs.Prelude.{◌≡◌};
ghost use Rattle.direct.specs.Direct.{called, loss_in};
ghost use Rattle.answer_head.specs.Head.{headed};
ghost use Rattle.answer.specs.Answer.{with_record, answer_record};
ghost use Rattle.vikkozhan.specs.Version.{version_number};

// 1.0.0, the first number times 2^16: the structs and functions of a header are the library's while that number is the same.
const VERSION: u32 = 1 << 16;

#[unsafe(no_mangle)]
pub extern "C" fn vikkozhan_version() -> u32
    ensures { result ≡ version_number 1 0 0 }
{
    VERSION
}

// Conceals one lost frame on the caller's own memory: `state` is the words of a state in document 01's order, `history`
// 4,336 samples, and `answer` becomes number, kind and sample count. The number is returned too; with any but 0 state,
// history and PCM stay.
#[unsafe(no_mangle)]
pub extern "C" fn vikkozhan_decode_lost(
    state: &mut [u32; 161],
    history: &mut [f32],
    pcm: &mut [f32],
    answer: &mut [u32; 3],
) -> u32
    ensures { called result answer.new state.new pcm.new history.new
        ≡ loss_in state.old history.old pcm.old }
{
    direct::decode_lost(state, history, pcm, answer)
}

// Conceals one lost frame: the record becomes the one after its loss, and `head` starts with number, kind, sample count
// and samples, as many bytes as is returned. Unless the record has 17,988 bytes and `head` 7,692 or more, both stay and
// 0 is returned.
#[unsafe(no_mangle)]
pub extern "C" fn vikkozhan_answer(rec: &mut [u8], head: &mut [u8]) -> usize
    ensures { with_record (headed result head.new) rec.new ≡ answer_record rec.old head.old }
{
    answer::answer_record(rec, head).unwrap_or(0)
}
