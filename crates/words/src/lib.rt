// 32-bit words and what they hold read from bytes, the lowest first.

#![tactic(auto)]

ghost use Rattle.std.specs.Prelude.{◌≡◌, length};
ghost use Rattle.words.specs.Bytes.{word_at, values_at};

use float_bits::words::Word;

// The word numbered i, 0 where b ends before it does: total, as a cut record is read too.
pub fn word_at(b: &[u8], i: usize) -> u32
    ensures { result ≡ word_at b.now i }
{
    let (words, _) = b.as_chunks::<4>();
    words.get(i).map_or(0, |word| u32::from_le_bytes(*word))
}

// The values of the words from the one numbered i on. i + k stops at usize::MAX: no list is that long.
// By number: past b's end a word is 0, and a zip with b's words would leave the value as it was. Into what is lent, as long as it
// is: a history of 17 kB; `state_words` makes short arrays out of words in memory instead.
pub fn values_at<W: Word>(b: &[u8], i: usize, out: &mut [W])
    ensures { out.new ≡ values_at W.of_word b.now i (length out.old) }
{
    for (k, v) in out.iter_mut().enumerate() {
        *v = W::from_word(word_at(b, i.saturating_add(k)));
    }
}
