// The head of an answer: number, kind, sample count and samples; and the answer to what is left past the last whole record.

#![tactic(auto)]

ghost use Rattle.std.specs.Prelude.{◌≡◌, length, leb};
ghost use Rattle.reply.specs.Reply.{replied, reply_if, value_or};
ghost use Rattle.answer_head.specs.Head.{report_length, headed, head_fits, head_written, answer_tail};

use custom_mode::standard::FRAME_MOST;
use put_words::put_values_at;
use reply::Refused;

// The samples of the longest answer: two channels of the longest frame.
pub const SAMPLES_MOST: usize = 2 * FRAME_MOST;

// The words, and the bytes, of number, kind and sample count.
const REPORT_WORDS: usize = 3;

const REPORT_BYTES: usize = 4 * REPORT_WORDS;

// The bytes of the longest answer.
pub const HEAD_BYTES: usize = REPORT_BYTES + 4 * SAMPLES_MOST;

// The number that a record cut short gets, written as document 01 gives it: no call is refused by it, so it is no `Refusal`.
const CUT_SHORT: u32 = 11;

// Number, kind and sample count, and then the samples; how many bytes they are. A `head` of less than 7,692 bytes or
// more than 1,920 samples are refused, and `head` stays. Number and kind are the record's own words, of 32 bits; buffer and
// count are what C is handed. The count by `as`: no more than 1,920, so that a `try_from` could not refuse.
#[tactic(auto, using(std::proofs::lemmas::Bool::Decides::nat_tests), unfolding(reply::specs::Reply::reply_if, crate::specs::Head::head_fits))]
pub fn write_head(head: &mut [u8], number: u32, kind: u32, pcm: &[f32]) -> Result<usize, Refused>
    ensures { replied result (headed (value_or 0 result) head.new)
        ≡ reply_if (head_fits (length pcm.now) (length pcm.now) (length head.old))
        (head_written number kind (length pcm.now) pcm.now head.old)
        (headed 0 head.old) }
{
    let samples = pcm.len();
    if head.len() < HEAD_BYTES || samples > SAMPLES_MOST {
        return Err(Refused);
    }
    put_values_at(head, 0, &[number, kind, samples as u32])?;
    put_values_at(head, REPORT_WORDS, pcm)?;
    Ok(REPORT_BYTES + 4 * samples)
}

// The step for what is left past the last whole record, n bytes of it: no bytes for none, and else 11, 0, 0. It answers
// a count, as `write_head` does, of which 0 is one: no `Option`.
// A `head` of less than 12 bytes is refused, and stays.
#[tactic(auto, using(std::proofs::lemmas::Bool::Decides::nat_tests), unfolding(reply::specs::Reply::reply_if))]
pub fn answer_tail(n: usize, head: &mut [u8]) -> Result<usize, Refused>
    ensures { replied result (headed (value_or 0 result) head.new)
        ≡ reply_if (leb report_length (length head.old)) (answer_tail n head.old) (headed 0 head.old) }
{
    if head.len() < REPORT_BYTES {
        return Err(Refused);
    }
    if n == 0 {
        return Ok(0);
    }
    put_values_at(head, 0, &[CUT_SHORT, 0, 0])?;
    Ok(REPORT_BYTES)
}
