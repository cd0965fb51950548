// The circle of cosines that a frame size reads, from a table.

#![tactic(auto)]

ghost use Rattle.std.specs.Prelude.{◌≡◌, ◌*◌, ◌≤◌};
ghost use Rattle.cosine_table.specs.Cosines.{cosines};
ghost use Rattle.cosine_circle.specs.Circle.{cos_at, is_frame_size, circle_of};

use cosine_table::{QUARTER, cosines};

// The shortest frame and the longest.
pub use custom_mode::standard::{FRAME_LEAST, FRAME_MOST};

// How many steps the longest frame's circle has.
pub const STEPS: usize = 4 * FRAME_MOST;

// One of the four frame sizes. By their numbers: a pattern takes no products of `FRAME_LEAST`.
#[tactic(auto, unfolding(crate::specs::Circle::is_frame_size))]
pub fn is_frame_size(n: usize) -> bool
    ensures { result ≡ is_frame_size n }
{
    matches!(n, 120 | 240 | 480 | 960)
}

// The cosine of j parts of a circle of 7,680. It asks that c is the table: no other function of this crate reads one, so no struct
// keeps it.
#[tactic(auto, using(crate::proofs::Quadrants::first, crate::proofs::Quadrants::second, crate::proofs::Quadrants::third, crate::proofs::Quadrants::fourth))]
fn cos_at(c: &[f64; QUARTER + 1], j: usize) -> f64
    requires c_value { c.now ≡ cosines }
    requires j_bound { j ≤ 4 * QUARTER }
    ensures { result ≡ cos_at j }
{
    if j <= QUARTER {
        c[j]
    } else if j <= 2 * QUARTER {
        -c[2 * QUARTER - j]
    } else if j <= 3 * QUARTER {
        -c[j - 2 * QUARTER]
    } else {
        c[4 * QUARTER - j]
    }
}

// The cosines of a circle of 4 n steps, each at half a step more than a whole one. Of a size that no frame has, zeros: it is
// total, and its caller has asked for the size. The longest circle's room, of which 4 n are used: there is no heap.
#[tactic(auto, using(crate::proofs::Circles::known, crate::proofs::Circles::place_known))]
pub fn circle(n: usize) -> [f64; STEPS]
    ensures { result ≡ circle_of n }
{
    let mut r = [0.0f64; STEPS];
    if !is_frame_size(n) {
        return r;
    }
    let c = cosines();
    let s = FRAME_MOST / n;
    for (i, v) in r[..4 * n].iter_mut().enumerate() {
        *v = cos_at(&c, s * (2 * i + 1));
    }
    r
}
