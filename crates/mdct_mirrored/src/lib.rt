// The inverse transform by half of its sums.

#![tactic(auto)]

ghost use Rattle.std.specs.Prelude.{◌≡◌, cond, ◌+◌, ◌-◌, ◌*◌, ◌/◌, ◌%◌, ◌<◌, ltb, length, get_or};
ghost use Rattle.std.specs.Float.{nan};
ghost use Rattle.reply.specs.Reply.{replied, value_or};
ghost use Rattle.mdct_mirrored.specs.Mirrored.{odd_at, even_at, mirrored_outputs, transformed, mirrored_reply};

use cosine_circle::FRAME_MOST;
use float_narrow::f64_to_f32;
use mdct::imdct::imdct_takes;
use mdct_pairs::pair_sums;
use reply::Refused;

// The half of the sums: an even number of them.
#[derive(Clone, Copy)]
struct Half<'a> {
    sums: &'a [f64],
    ghost even: { length sums.now % 2 ≡ 0 },
}

impl Half<'_> {
    // The pair of sums that output u of either half is made from: past the middle, the mirrored one. Here and in both halves u
    // is asked to lie in a half: a struct for one number would be made at each call, and be no plainer.
    #[tactic(auto, using(std::proofs::lemmas::Bool::Decides::nat_tests))]
    fn pair(self, u: usize) -> usize
        requires { u < length self.sums.now }
        ensures { (result ≡ cond (ltb u (length self.entry.sums.now / 2)) u (length self.entry.sums.now - 1 - u))
            × (2 * result + 1 < length self.entry.sums.now) }
    {
        let n = self.sums.len();
        if u < n / 2 { u } else { n - 1 - u }
    }

    // Output u of the first half, odd about its middle: past it, the sum with its sign turned. By 0 less it, not `-`: of a zero sum
    // that is +0, as the direct sum has it.
    #[tactic(auto, using(crate::proofs::Halves::odd_before, crate::proofs::Halves::odd_past), unfolding(mdct::specs::Imdct::half_of, float_sign::specs::Turned::turned))]
    fn odd_output(self, u: usize) -> f32
        requires { u < length self.sums.now }
        ensures { result ≡ odd_at (length self.entry.sums.now) self.entry.sums.now u }
    {
        let sum = self.sums[2 * self.pair(u)];
        if u < self.sums.len() / 2 {
            f64_to_f32(0.5 * sum)
        } else {
            f64_to_f32(0.5 * (0.0 - sum))
        }
    }

    // Output u of the second half, even about its middle.
    #[tactic(auto, using(crate::proofs::Halves::even_of), unfolding(mdct::specs::Imdct::half_of))]
    fn even_output(self, u: usize) -> f32
        requires { u < length self.sums.now }
        ensures { result ≡ even_at (length self.entry.sums.now) self.entry.sums.now u }
    {
        f64_to_f32(0.5 * self.sums[2 * self.pair(u) + 1])
    }

    // Output t of 2 n.
    #[tactic(auto, using(crate::proofs::Halves::in_first, crate::proofs::Halves::in_second))]
    fn output(self, t: usize) -> f32
        requires { t < 2 * length self.sums.now }
        ensures { result ≡ get_or (mirrored_outputs (length self.entry.sums.now) self.entry.sums.now) t nan }
    {
        let n = self.sums.len();
        if t < n {
            self.odd_output(t)
        } else {
            self.even_output(t - n)
        }
    }

    // All 2 n outputs. A list by a function of its number, as `fill_inputs` in mdct_pairs and `fill_by` in plc_downsample fill
    // theirs: one for all would be public, and ask that its closure may be called.
    fn outputs(self, out: &mut [f32])
        requires { length out.old ≡ 2 * length self.sums.now }
        ensures { out.new ≡ mirrored_outputs (length self.entry.sums.now) self.entry.sums.now }
    {
        for (t, o) in out.iter_mut().enumerate() {
            *o = self.output(t);
        }
    }
}

// Takes n inputs, n one of the four frame sizes, into 2 n outputs, as `imdct_naive_f32` does, and answers how many products it
// made. Any other lengths are refused, and out stays as it was.
pub fn imdct_mirrored_f32(spectrum: &[f32], out: &mut [f32]) -> Result<usize, Refused>
    ensures { replied result (transformed out.new (value_or 0 result)) ≡ mirrored_reply spectrum.now out.old }
{
    if !imdct_takes(spectrum.len(), out.len()) {
        return Err(Refused);
    }
    // The longest frame's, cut to n: there is no heap.
    let mut room = [0.0f64; FRAME_MOST];
    let sums = &mut room[..spectrum.len()];
    let products = pair_sums(spectrum, sums)?;
    Half { sums }.outputs(out);
    Ok(products)
}
