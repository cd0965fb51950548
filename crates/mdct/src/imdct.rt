// The inverse transform as a direct sum, its cosines from a circle of them.
ghost use Rattle.std.specs.Prelude.{◌≡◌, true, ℕ, cond, ltb, ◌+◌, ◌-◌, ◌*◌, ◌/◌, ◌%◌, ◌<◌, ◌≤◌, length, get_or};
ghost use Rattle.std.specs.Float.{nan, binary64};
ghost use Rattle.std.specs.Float.Ieee.{add, mul};
ghost use Rattle.loops.specs.Front.{tab};
ghost use Rattle.reply.specs.Reply.{replied};
ghost use Rattle.cosine_circle.specs.Circle.{is_frame_size, IsCircle};
ghost use Rattle.mdct.specs.Imdct.{imdct, imdct_takes, imdct_reply, imdct_sum};

use cosine_circle::{STEPS, circle, is_frame_size};
use float_bits::formats::f32_to_f64;
use float_narrow::f64_to_f32;
use reply::Refused;
use std::array::from_fn;

// i, less than two turns, in a circle of w steps. Not `i % w`, which would ask for a w above 0, as no pub fn does.
pub fn wrapped(i: usize, w: usize) -> usize
    ensures value { result ≡ cond (ltb i w) i (i - w) }
    ensures place { i < 2 * w → result ≡ i % w }
{
    if i < w { i } else { i - w }
}

// Eight places on a circle of w steps, from first on, by steps further each.
// It asks for bounds, as no pub fn does: `mdct_pairs` makes its first places by itself.
fn along(first: usize, by: usize, w: usize) -> [usize; 8]
    requires { (first < 8000) × (by ≤ 2) × (0 < w) }
    ensures { result ≡ tab (λ j. (first + by * j) % w) 8 }
{
    from_fn(|j| (first + by * j) % w)
}

// Adds an input v to eight sums, each times the cosine at its place.
// Here and in `onward` the second list is read by number: of `iter_mut().zip(..)` a proof knows the items alone. The contracts have
// 3,840 and 1,920 by number, as the laws of places in a circle have them.
fn add_terms(circle: &[f64; STEPS], v: f64, at: &[usize; 8], acc: &mut [f64; 8])
    requires by_index { (j : ℕ) → j < 8 → get_or at.now j 0 < 3840 }
    ensures { acc.new
        ≡ tab (λ j. add binary64 (get_or acc.old j nan) (mul binary64 v (get_or circle.now (get_or at.now j 0) nan))) 8 }
{
    for (j, sum) in acc.iter_mut().enumerate() {
        *sum += v * circle[at[j]];
    }
}

// Takes each of eight places its step on, in a circle of w steps.
fn onward(step: &[usize; 8], w: usize, at: &mut [usize; 8])
    requires w_bound { w ≤ 3840 }
    requires by_index { (j : ℕ) → j < 8 → (get_or at.old j 0 < w) × (get_or step.now j 0 < w) }
    ensures { at.new ≡ tab (λ j. (get_or at.old j 0 + get_or step.now j 0) % w) 8 }
{
    for (j, place) in at.iter_mut().enumerate() {
        *place = wrapped(*place + step[j], w);
    }
}

// The inputs of a frame, beside the circle of cosines for their number.
#[derive(Clone, Copy)]
struct Frame<'a> {
    circle: &'a [f64; STEPS],
    x: &'a [f32],
    ghost circle_is: { IsCircle (length x.now) circle.now },
    ghost frame: { is_frame_size (length x.now) ≡ true },
}

impl Frame<'_> {
    // The sums of eight outputs from t on: eight sums side by side, each in the order of the inputs. Eight by number, here and in
    // `outputs`: the contracts and the name say it too.
    fn eight(self, t: usize) -> [f64; 8]
        requires { t < 1920 }
        ensures { result ≡ tab (λ j. imdct_sum (length self.entry.x.now) self.entry.x.now (t + j)) 8 }
    {
        let n = self.x.len();
        let w = 4 * n;
        let step = along(2 * t + 1 + n, 2, w);
        let mut at = along(t + n / 2, 1, w);
        let mut acc = [0.0f64; 8];
        for value in self.x {
            add_terms(self.circle, f32_to_f64(*value), &at, &mut acc);
            onward(&step, w, &mut at);
        }
        acc
    }

    // All 2 n outputs.
    #[tactic(auto, using(cosine_circle::proofs::Sizes::few))]
    fn outputs(self, out: &mut [f32])
        requires { length out.old ≡ 2 * length self.x.now }
        ensures { out.new ≡ imdct (length self.entry.x.now) self.entry.x.now }
    {
        // By number: of parts that `chunks_exact_mut` lends a proof knows how many there are, not what they leave. The walk by
        // eights is that of `fill_sums` in mdct_pairs: one for both would be public, and ask that its closure may be called.
        for k in 0..out.len() / 8 {
            let t = 8 * k;
            out[t..t + 8].copy_from_slice(&self.eight(t).map(|sum| f64_to_f32(0.5 * sum)));
        }
    }
}

// Whether there are as many inputs as one of the four frame sizes, and room for twice as many outputs. For two callers, here and in
// mdct_mirrored; `pair_sums` and `fill_pairs` want other room, and ask for it where they refuse.
#[tactic(auto, using(std::proofs::lemmas::Bool::Decides::nat_tests, cosine_circle::proofs::Sizes::few), unfolding(crate::specs::Imdct::imdct_takes))]
pub fn imdct_takes(inputs: usize, outputs: usize) -> bool
    ensures { result ≡ imdct_takes inputs outputs }
{
    is_frame_size(inputs) && outputs == 2 * inputs
}

// Takes n inputs, n one of the four frame sizes, into 2 n outputs. Any other lengths are refused, and out stays as it was.
pub fn imdct_naive_f32(spectrum: &[f32], out: &mut [f32]) -> Result<(), Refused>
    ensures { replied result out.new ≡ imdct_reply spectrum.now out.old }
{
    if !imdct_takes(spectrum.len(), out.len()) {
        return Err(Refused);
    }
    let frame = Frame {
        circle: &circle(spectrum.len()),
        x: spectrum,
    };
    frame.outputs(out);
    Ok(())
}
