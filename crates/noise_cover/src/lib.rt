// A noise block over a channel's newest samples.

#![tactic(auto)]

ghost use Rattle.std.specs.Prelude.{◌≡◌, ◌++◌, ◌-◌, length, drop};
ghost use Rattle.reply.specs.Reply.{replied, reply_if};
ghost use Rattle.history.specs.History.{overlap};
ghost use Rattle.noise_cover.specs.Cover.{overlapped, lay_takes};

use history::OVERLAP;
use reply::Refused;

// `tail` is a channel's newest n samples and its overlap. The block's first samples are added to the old overlap.
// Refused, with the tail as lent: n below 120, a block of another length.
pub fn lay(tail: &mut [f32], block: &[f32]) -> Result<(), Refused>
    ensures { replied result tail.new
        ≡ reply_if (lay_takes (length tail.old) (length block.now))
        (overlapped block.now (drop (length tail.old - overlap) tail.old) ++ drop overlap block.now)
        tail.old }
{
    let size = tail.len();
    if size < 2 * OVERLAP || block.len() != size {
        return Err(Refused);
    }
    let (first, rest) = tail.split_at_mut(OVERLAP);
    let over = &rest[size - 2 * OVERLAP..];
    // Block and overlap by number: of a zip with `iter_mut` a proof has the items alone, not the list that they leave.
    for (j, v) in first.iter_mut().enumerate() {
        *v = block[j] + over[j];
    }
    rest.copy_from_slice(&block[OVERLAP..]);
    Ok(())
}
