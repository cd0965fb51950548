// How a band is brought to unit energy.

#![tactic(auto)]

ghost use Rattle.std.specs.Prelude.{◌≡◌};
ghost use Rattle.band_quant.specs.Renormalise.{energy64, renormalise_vector};

// What a band's energy starts from, so that it is above zero.
const FLOOR: f64 = 1e-15;

// 1e-15 and the squares of all values, in f64.
// `buffers::energy` adds in f32: one function over both formats would want a trait, longer than the two.
fn energy64(x: &[f32]) -> f64
    ensures { result ≡ energy64 x.now }
{
    let mut e = FLOOR;
    for value in x {
        let v = float_bits::formats::f32_to_f64(*value);
        e += v * v;
    }
    e
}

// Scales x to the energy gain * gain. The sum starts at 1e-15, so a band of zeros stays one.
pub fn renormalise_vector(x: &mut [f32], gain: f32)
    ensures { x.new ≡ renormalise_vector x.old gain }
{
    let e = energy64(x);
    let g = gain / float_root::sqrt_f32(float_narrow::f64_to_f32(e));
    buffers::scale(x, g);
}
