// The inputs in pairs.
ghost use Rattle.std.specs.Prelude.{◌≡◌, ◌*◌, ◌<◌, ◌≤◌, length};
ghost use Rattle.mdct_pairs.specs.Inputs.{input_at, inputs_of};

use float_bits::formats::f32_to_f64;

// Place i of the inputs in pairs.
fn input_at(x: &[f32], i: usize) -> f64
    requires { (i < 2 * length x.now) × (length x.now ≤ 960) }
    ensures { result ≡ input_at x.now i }
{
    let v = f32_to_f64(x[i / 2]);
    if i % 4 == 3 { -v } else { v }
}

// Each input twice, the second of every other pair with its sign turned. A loop of its own, as `outputs` in mdct_mirrored says.
// The longest frame by number, here and in `lanes`: the laws on these lists have it so.
pub(crate) fn fill_inputs(x: &[f32], inputs: &mut [f64])
    requires { (length x.now ≤ 960) × (length inputs.old ≡ 2 * length x.now) }
    ensures { inputs.new ≡ inputs_of x.now }
{
    for (i, v) in inputs.iter_mut().enumerate() {
        *v = input_at(x, i);
    }
}
