// A frame taken in at the newest end of one channel.

#![tactic(auto)]

ghost use Rattle.std.specs.Prelude.{◌≡◌, length};
ghost use Rattle.reply.specs.Reply.{replied, reply_if};
ghost use Rattle.history.specs.History.{tail_of, tail_list};
ghost use Rattle.take_in.specs.TakeIn.{tail_after, tail_takes};

use fold::fold_tail;
use history::{EXTRA, HALF, LONGEST_FRAME, OVERLAP, TAIL};
use post_filter::{Filter, filter_fits};
use prefilter::prefilter;
use reply::Refused;
use roll::roll;

// On the newest 1,024 and the overlap: e's first n samples come in, and the next 120 are folded into the overlap,
// which is pre-filtered. Refused, with t as lent: t not of 1,144 samples, a frame above 960, e not of the frame and 240 more,
// a filter outside its limits.
// n beside e, though e's length says it: it is promised that an e of another length is refused.
#[tactic(auto, using(std::proofs::lemmas::Bool::Decides::nat_tests), unfolding(reply::specs::Reply::reply_if, crate::specs::TakeIn::tail_takes))]
pub fn take_in(t: &mut [f32], n: usize, e: &[f32], filter: Filter) -> Result<(), Refused>
    ensures { replied result t.new
        ≡ reply_if (tail_takes (length t.old) n (length e.now) filter)
        (tail_list (tail_after n e.now filter (tail_of t.old))) t.old }
{
    if t.len() != TAIL || LONGEST_FRAME < n || e.len() != n + EXTRA || !filter_fits(filter) {
        return Err(Refused);
    }
    roll(&mut t[..HALF], &e[..n])?;
    fold_tail(&mut t[HALF..], &e[n..n + OVERLAP])?;
    prefilter(t, filter)
}
