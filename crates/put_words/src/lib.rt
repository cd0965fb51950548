// 32-bit words and what they hold written as bytes, the lowest first.

#![tactic(auto)]

ghost use Rattle.std.specs.Prelude.{◌≡◌, ◌*◌, length};
ghost use Rattle.loops.specs.Part.{put};
ghost use Rattle.reply.specs.Reply.{replied, reply_if};
ghost use Rattle.words.specs.Bytes.{holds, values_bytes};

use float_bits::words::Word;
use reply::Refused;

// The bytes of the values' words, in place. By place: of the parts that `as_chunks_mut` lends the check knows how many, not what b
// becomes.
// `put_state_words` fills words and no bytes, so that its loop is another.
fn put_values<W: Word>(b: &mut [u8], xs: &[W])
    requires { length b.old ≡ 4 * length xs.now }
    ensures { b.new ≡ values_bytes W.word_of xs.now }
{
    for (i, x) in xs.iter().enumerate() {
        b[4 * i..4 * i + 4].copy_from_slice(&x.to_word().to_le_bytes());
    }
}

// The values' bytes in the place of the words from the one numbered i on; b stays where it does not hold so many: i + n, asked
// without an overflow.
pub fn put_values_at<W: Word>(b: &mut [u8], i: usize, xs: &[W]) -> Result<(), Refused>
    ensures { replied result b.new
        ≡ reply_if (holds b.old i (length xs.now))
        (put (4 * i) (4 * length xs.now) (values_bytes W.word_of xs.now) b.old)
        b.old }
{
    let n = xs.len();
    let words = b.len() / 4;
    if words < n || words - n < i {
        return Err(Refused);
    }
    put_values(&mut b[4 * i..4 * (i + n)], xs);
    Ok(())
}
