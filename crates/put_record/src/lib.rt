// The bytes of a state and its history: the tent's record, written.

#![tactic(auto)]

ghost use Rattle.std.specs.Prelude.{◌≡◌};
ghost use Rattle.reply.specs.Reply.{replied, reply_if};
ghost use Rattle.record.specs.Record.{record_of, writable};

use put_state_words::to_words;
use put_words::put_values_at;
use record::{BYTES, HISTORY};
use reply::Refused;
use state::State;

// The record of a state and its history. Other lengths than a record's and a history's leave b as it is: a slice, as C lends it.
pub fn write_record(b: &mut [u8], s: State, history: &[f32]) -> Result<(), Refused>
    ensures { replied result b.new
        ≡ reply_if (writable b.old history.now) (record_of s history.now) b.old }
{
    if b.len() != BYTES || history.len() != history::WHOLE {
        return Err(Refused);
    }
    put_values_at(b, 0, &to_words(s))?;
    put_values_at(b, HISTORY, history)
}
