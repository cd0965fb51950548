// Four pairs of sums side by side, each in the order of the inputs, and those of a whole frame.
ghost use Rattle.std.specs.Prelude.{◌≡◌, true, ℕ, ◌+◌, ◌*◌, ◌/◌, ◌%◌, ◌<◌, ◌≤◌, length, get_or};
ghost use Rattle.std.specs.Float.{nan, binary64};
ghost use Rattle.std.specs.Float.Ieee.{add, mul};
ghost use Rattle.loops.specs.Front.{tab};
ghost use Rattle.cosine_circle.specs.Circle.{is_frame_size};
ghost use Rattle.mdct.specs.Imdct.{imdct_sum};
ghost use Rattle.mdct_work.specs.Work.{values, total, pair_sums};
ghost use Rattle.cosine_pairs.specs.Pairs.{pairs_of};
ghost use Rattle.mdct_pairs.specs.Inputs.{inputs_of};

use mdct::imdct::wrapped;
use std::array::from_fn;

// Four pairs of sums, and how many products were made for them: counted as they are made, since document 01 asks for the count in
// the result.
// Four and eight by number, here and below: the laws on these four pairs have the numbers too.
#[derive(Clone, Copy)]
pub(crate) struct Sums {
    pub(crate) sums: [f64; 8],
    pub(crate) products: usize,
}

// Adds a pair of inputs to four pairs of sums, each times the pair of cosines at its place.
// Not the functions of `mdct`: sums in pairs read two tables by pairs, go other steps, and come back into the circle
// once for two inputs. The sums are written by number: of a zip with `iter_mut` a proof has the items alone.
fn add_terms(pairs: &[f64], inputs: [f64; 2], at: &[usize; 4], acc: &mut [f64; 8])
    requires pairs_len { length pairs.now ≤ 11520 }
    requires by_index { (j : ℕ) → j < 4 → get_or at.now j 0 + 2 ≤ length pairs.now }
    ensures { acc.new
        ≡ tab (λ e. add binary64 (get_or acc.old e nan)
        (mul binary64 (get_or inputs (e % 2) nan) (get_or pairs.now (get_or at.now (e / 2) 0 + e % 2) nan))) 8 }
{
    for (e, sum) in acc.iter_mut().enumerate() {
        *sum += inputs[e % 2] * pairs[at[e / 2] + e % 2];
    }
}

// Takes each of four places its step on, which for each output is four places more than for the one before.
fn onward(step: usize, at: &mut [usize; 4])
    requires step_bound { step < 8000 }
    requires by_index { (j : ℕ) → j < 4 → get_or at.old j 0 < 16000 }
    ensures { at.new ≡ tab (λ j. get_or at.old j 0 + (step + 4 * j)) 4 }
{
    for (j, place) in at.iter_mut().enumerate() {
        *place += step + 4 * j;
    }
}

// Where four outputs from t on read their first pair: before the circle's end, so without the remainder that `mdct` takes.
fn first_places(t: usize, n: usize) -> [usize; 4]
    requires { (t < 1000) × (n ≤ 960) }
    ensures { result ≡ tab (λ j. 2 * (t + j) + n) 4 }
{
    from_fn(|j| 2 * (t + j) + n)
}

// What the sums of a frame are made from: its inputs, and both tables.
#[derive(Clone, Copy)]
pub(crate) struct Tables<'a> {
    pub(crate) pairs: &'a [f64],
    pub(crate) inputs: &'a [f64],
    pub(crate) x: &'a [f32],
    ghost frame: { is_frame_size (length x.now) ≡ true },
    ghost pairs_value: { pairs.now ≡ pairs_of (length x.now) },
    ghost inputs_value: { inputs.now ≡ inputs_of x.now },
}

impl Tables<'_> {
    // The sums of outputs t to t + 3, each beside that of the output n further on. Two inputs are taken between two looks at the
    // circle's end.
    pub(crate) fn four(self, t: usize) -> Sums
        requires { 2 * t + 8 ≤ length self.x.now }
        ensures { (result.sums
            ≡ tab (λ e. imdct_sum (length self.entry.x.now) self.entry.x.now (t + e / 2 + e % 2 * length self.entry.x.now)) 8)
            × (result.products ≡ 8 * length self.entry.x.now) }
    {
        let n = self.x.len();
        let w = 8 * n;
        let step = 2 * (2 * t + 1 + n);
        let mut at = first_places(t, n);
        let mut acc = [0.0f64; 8];
        let mut products = 0;
        let (fours, _) = self.inputs.as_chunks::<4>();
        for four in fours {
            let [a, b, c, d] = *four;
            add_terms(self.pairs, [a, b], &at, &mut acc);
            onward(step, &mut at);
            add_terms(self.pairs, [c, d], &at, &mut acc);
            onward(step, &mut at);
            at = at.map(|place| wrapped(place, w));
            products += 16;
        }
        Sums {
            sums: acc,
            products,
        }
    }

    // The n sums, in pairs, and the products made for them.
    #[tactic(auto, using(crate::proofs::Eights::room))]
    pub(crate) fn fill_sums(self, sums: &mut [f64]) -> usize
        requires { length sums.old ≡ length self.x.now }
        ensures { (sums.new ≡ values (pair_sums (length self.entry.x.now) self.entry.x.now))
            × (result ≡ total (pair_sums (length self.entry.x.now) self.entry.x.now)) }
    {
        let mut products = 0;
        // By number, as `outputs` in mdct, which says why the two walks are two: of parts lent in eights a proof knows how many
        // there are, not what they leave.
        for k in 0..sums.len() / 8 {
            let t = 8 * k;
            let made = self.four(4 * k);
            sums[t..t + 8].copy_from_slice(&made.sums);
            products += made.products;
        }
        products
    }
}
