// The sums of the inverse transform by pairs: outputs t and n + t read the circle of cosines a quarter apart.

#![tactic(auto)]

ghost use Rattle.std.specs.Prelude.{◌≡◌, true, ◌*◌, ◌≤◌, length};
ghost use Rattle.reply.specs.Reply.{replied, value_or};
ghost use Rattle.cosine_circle.specs.Circle.{is_frame_size};
ghost use Rattle.mdct_pairs.specs.Pairs.{pair_reply, summed};
ghost use Rattle.mdct_work.specs.Work.{values, total, pair_sums};

use cosine_circle::{FRAME_LEAST, FRAME_MOST, is_frame_size};
use cosine_pairs::{PLACES, fill_pairs};
use inputs::fill_inputs;
use lanes::Tables;
use reply::Refused;

mod inputs;
mod lanes;

// The places of both tables, for the shortest frame and for the longest: by names, since a const argument is no product.
const LEAST_PAIRS: usize = PLACES * FRAME_LEAST;

const LEAST_INPUTS: usize = 2 * FRAME_LEAST;

const MOST_PAIRS: usize = PLACES * FRAME_MOST;

const MOST_INPUTS: usize = 2 * FRAME_MOST;

// Makes both tables, of cosines and of inputs, and the sums from them.
fn sums_by_tables(
    pairs: &mut [f64],
    inputs: &mut [f64],
    spectrum: &[f32],
    sums: &mut [f64],
) -> usize
    requires frame { is_frame_size (length spectrum.now) ≡ true }
    requires rooms { (length pairs.old ≡ PLACES * length spectrum.now) × (length inputs.old ≡ 2 * length spectrum.now)
        × (length sums.old ≡ length spectrum.now) }
    ensures { (sums.new ≡ values (pair_sums (length spectrum.now) spectrum.now))
        × (result ≡ total (pair_sums (length spectrum.now) spectrum.now)) }
{
    fill_pairs(spectrum.len(), pairs).unwrap();
    fill_inputs(spectrum, inputs);
    let tables = Tables {
        pairs,
        inputs,
        x: spectrum,
    };
    tables.fill_sums(sums)
}

// The sums, with room for the tables of every frame whose cosines take at most P places and whose inputs at most I. Two numbers,
// since no array's length is computed from a const parameter.
fn sums_within<const P: usize, const I: usize>(spectrum: &[f32], sums: &mut [f64]) -> usize
    requires frame { is_frame_size (length spectrum.now) ≡ true }
    requires rooms { (PLACES * length spectrum.now ≤ P) × (P ≤ MOST_PAIRS) × (2 * length spectrum.now ≤ I) × (I ≤ MOST_INPUTS) }
    requires sums_len { length sums.old ≡ length spectrum.now }
    ensures { (sums.new ≡ values (pair_sums (length spectrum.now) spectrum.now))
        × (result ≡ total (pair_sums (length spectrum.now) spectrum.now)) }
{
    let n = spectrum.len();
    let mut pairs = [0.0f64; P];
    let mut inputs = [0.0f64; I];
    sums_by_tables(
        &mut pairs[..PLACES * n],
        &mut inputs[..2 * n],
        spectrum,
        sums,
    )
}

// Half of the sums of n inputs, n one of the four frame sizes: of outputs t and n + t side by side, for t below n / 2. Answers
// how many products were made. Any other lengths are refused, and sums stays as it was.
#[tactic(auto, using(std::proofs::lemmas::Bool::Decides::nat_tests), unfolding(crate::specs::Pairs::pair_reply, crate::specs::Pairs::pair_takes, reply::specs::Reply::reply_if))]
pub fn pair_sums(spectrum: &[f32], sums: &mut [f64]) -> Result<usize, Refused>
    ensures { replied result (summed sums.new (value_or 0 result)) ≡ pair_reply spectrum.now sums.old }
{
    let n = spectrum.len();
    if !is_frame_size(n) || sums.len() != n {
        return Err(Refused);
    }
    // The shortest frame has tables of its own: clearing the longest frame's would take half as long as the shortest's sums.
    if n == FRAME_LEAST {
        Ok(sums_within::<LEAST_PAIRS, LEAST_INPUTS>(spectrum, sums))
    } else {
        Ok(sums_within::<MOST_PAIRS, MOST_INPUTS>(spectrum, sums))
    }
}
