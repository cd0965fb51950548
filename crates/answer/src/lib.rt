// The answer to one record.

#![tactic(auto)]

ghost use Rattle.std.specs.Prelude.{◌≡◌, true, ◌≤◌, length};
ghost use Rattle.reply.specs.Reply.{replied, reply, reply_if, value_or};
ghost use Rattle.loss.specs.Loss.{outcome_of, in_buffer};
ghost use Rattle.record.specs.Record.{record_length, state_of};
ghost use Rattle.answer_head.specs.Head.{head_most, headed, headed_by};
ghost use Rattle.answer.specs.Answer.{loss_of, head_of, record_after, with_record, takes, answer_record};

use answer_head::{HEAD_BYTES, SAMPLES_MOST, write_head};
use history::WHOLE;
use put_record::write_record;
use reply::Refused;
use settings::Refusal;
use state::{Answer, report};

// One loss on a record's state and history.
fn conceal_record(
    rec: &[u8],
    history: &mut [f32; WHOLE],
    pcm: &mut [f32; SAMPLES_MOST],
) -> Result<Answer, Refusal>
    ensures { outcome_of (state_of rec.now) result pcm.new history.new ≡ in_buffer pcm.old (loss_of rec.now) }
{
    words::values_at(rec, record::HISTORY, history);
    ref_decode::decode_lost(record::read_state(rec), history, pcm)
}

// A record whose loss was accepted is written anew; a refused one stays as it was read. Not one function with `direct`'s: a record
// is bytes, with the history in them, and the head is what C is handed. By `as`: std has no `From` of a word to usize.
// By length: once `try_from` has made an array of the slice, a proof no longer has what the slice itself becomes.
// Room for a whole history and for the longest answer: there is no heap.
fn answer(rec: &mut [u8], head: &mut [u8]) -> Result<usize, Refused>
    requires { (length rec.old ≡ record_length) × (head_most ≤ length head.old) }
    ensures { replied result (with_record (headed (value_or 0 result) head.new) rec.new)
        ≡ reply true (with_record (headed_by (head_of (loss_of rec.old)) head.old) (record_after rec.old)) }
{
    let mut history = [0.0f32; WHOLE];
    let mut pcm = [0.0f32; SAMPLES_MOST];
    let call = conceal_record(rec, &mut history, &mut pcm);
    let [number, kind, samples] = report(&call);
    if let Ok(a) = call {
        write_record(rec, a.state, &history)?;
    }
    write_head(head, number, kind, &pcm[..samples as usize])
}

// One record's step: the record becomes the one after its loss, and `head` starts with number, kind, sample count and
// samples, as many bytes as is returned: buffer and count are what C is handed. Unless the record has 17,988 bytes and `head`
// 7,692 or more, it is refused and both stay.
#[tactic(auto, using(std::proofs::lemmas::Bool::Decides::nat_tests), unfolding(reply::specs::Reply::reply_if, crate::specs::Answer::takes))]
pub fn answer_record(rec: &mut [u8], head: &mut [u8]) -> Result<usize, Refused>
    ensures { replied result (with_record (headed (value_or 0 result) head.new) rec.new)
        ≡ reply_if (takes rec.old head.old) (answer_record rec.old head.old) (with_record (headed 0 head.old) rec.old) }
{
    if rec.len() != record::BYTES || head.len() < HEAD_BYTES {
        return Err(Refused);
    }
    answer(rec, head)
}
