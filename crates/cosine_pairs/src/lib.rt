// The circle of cosines in pairs, as the sums by pairs read it: each cosine beside the one a quarter of the circle on.

#![tactic(auto)]

ghost use Rattle.std.specs.Prelude.{◌≡◌, true, ◌++◌, ℕ, ◌+◌, ◌*◌, ◌%◌, ◌≤◌, ◌<◌, length, take};
ghost use Rattle.loops.specs.Front.{front, tab};
ghost use Rattle.reply.specs.Reply.{replied};
ghost use Rattle.cosine_table.specs.Cosines.{cosines};
ghost use Rattle.cosine_circle.specs.Circle.{cos_at, is_frame_size};
ghost use Rattle.cosine_pairs.specs.Pairs.{pair_at, pairs_reply};

use cosine_circle::{FRAME_MOST, is_frame_size};
use cosine_table::{QUARTER, cosines};
use reply::Refused;

// How many quarters of the circle the pairs go over: a circle and a half.
const QUARTERS: usize = 6;

// How many places the pairs take for each of a frame's n: two in each quarter.
pub const PLACES: usize = 2 * QUARTERS;

// The table of cosines, and the frame size whose pairs are read from it.
#[derive(Clone, Copy)]
struct Table<'a> {
    c: &'a [f64; QUARTER + 1],
    n: usize,
    ghost c_value: { c.now ≡ cosines },
    ghost frame: { is_frame_size n ≡ true },
}

impl Table<'_> {
    // The cosine of r quarters and j parts more of a circle of 7,680. By the quarter, which is the same for a whole loop of
    // `quarter`: found from 1,920 r + j anew for each, as by `cosine_circle`, it makes the sums of a frame of 120 a fifth slower.
    #[tactic(auto, using(crate::proofs::Pairs::corner_first, crate::proofs::Pairs::corner_second, crate::proofs::Pairs::corner_third, crate::proofs::Pairs::corner_fourth))]
    fn corner(self, j: usize, r: usize) -> f64
        requires { (0 < j) × (j < QUARTER) }
        ensures { result ≡ cos_at ((1920 * r + j) % 7680) }
    {
        match r % 4 {
            0 => self.c[j],
            1 => -self.c[QUARTER - j],
            2 => -self.c[j],
            _ => self.c[QUARTER - j],
        }
    }

    // The n pairs of quarter r of the circle.
    #[tactic(auto, using(crate::proofs::Pairs::in_quarter, crate::proofs::Pairs::in_step))]
    fn quarter(self, r: usize, part: &mut [f64])
        requires { (r < QUARTERS) × (length part.old ≡ 2 * self.n) }
        ensures { part.new ≡ tab (λ j. pair_at self.entry.n (2 * (self.entry.n * r) + j)) (2 * self.entry.n) }
    {
        let s = FRAME_MOST / self.n;
        // By number: of pairs that `as_chunks_mut` lends a proof knows how many there are, not what they leave.
        for p in 0..self.n {
            let j = s * (2 * p + 1);
            part[2 * p] = self.corner(j, r);
            part[2 * p + 1] = self.corner(j, r + 1);
        }
    }
}

// The pairs of a circle and a half for the frame size n, in 12 n places. Any other size or number of places is refused, and they
// stay as they were: so n stands beside the places, whose number would say it, and a call with more or fewer is promised a refusal.
#[tactic(auto, using(cosine_circle::proofs::Sizes::few, crate::proofs::Pairs::in_room, std::proofs::lemmas::Bool::Decides::nat_tests), unfolding(crate::specs::Pairs::pairs_reply, crate::specs::Pairs::pairs_take, reply::specs::Reply::reply_if))]
pub fn fill_pairs(n: usize, pairs: &mut [f64]) -> Result<(), Refused>
    ensures { replied result pairs.new ≡ pairs_reply n pairs.old }
{
    if !is_frame_size(n) || pairs.len() != PLACES * n {
        return Err(Refused);
    }
    let table = Table { c: &cosines(), n };
    // By number, as the pairs of a quarter.
    for r in 0..QUARTERS {
        let first = 2 * (n * r);
        table.quarter(r, &mut pairs[first..first + 2 * n]);
    }
    Ok(())
}
