// The pre-filter of the overlap behind the newest 1,024 samples: it undoes ahead what the post-filter will do there.

#![tactic(auto)]

ghost use Rattle.std.specs.Prelude.{◌≡◌, length};
ghost use Rattle.reply.specs.Reply.{replied, reply_if};
ghost use Rattle.prefilter.specs.Prefilter.{pre_filtered_end, prefilter_takes};

use comb_filter::comb_filter_to;
use history::{HALF, OVERLAP, TAIL};
use post_filter::{Filter, filter_fits};
use reply::Refused;

// A gain of zero leaves the overlap, a NaN does not.
// Refused, with t as lent: t not of 1,144 samples, a setting outside its limits.
#[tactic(auto, using(std::proofs::lemmas::Bool::Decides::nat_tests), unfolding(reply::specs::Reply::reply_if, crate::specs::Prefilter::prefilter_takes))]
pub fn prefilter(t: &mut [f32], f: Filter) -> Result<(), Refused>
    ensures { replied result t.new ≡ reply_if (prefilter_takes (length t.old) f) (pre_filtered_end f t.old) t.old }
{
    if t.len() != TAIL || !filter_fits(f) {
        return Err(Refused);
    }
    if f.gain == 0.0 {
        return Ok(());
    }
    let mut pre = [0.0; OVERLAP];
    comb_filter_to(&mut pre, t, f)?;
    t[HALF..].copy_from_slice(&pre);
    Ok(())
}
