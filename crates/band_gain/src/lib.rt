// The gain of a band, from the f32 sum of its energy and its mean.

#![tactic(auto)]

ghost use Rattle.std.specs.Prelude.{◌≡◌, ◌≤◌, false, T};
ghost use Rattle.std.specs.Float.{fin, binary32, binary64};
ghost use Rattle.std.specs.Float.Ieee.{minus, fits, of_int, add};
ghost use Rattle.band_gain.specs.Gain.{steps, gain_at, gain_of, GainRange};

use std::f64::consts::LN_2;

// At 2 ^ -150 and below a gain counts as 0.
const LEAST: u64 = 150;

// The steps of 1/256 from -150 to 0. Here and below 256 stands by number, and 150 in `band_gain`: each is a u64 in some places, a
// float in others. An i64 becomes an f64 by a cast, since std has no `From` for it.
const BIAS: u64 = LEAST * 256;

// One in the exponent's field of an f64, and what stands there for 2 ^ 0. float_narrow has the shift for itself too: one for both
// would be public for that.
const EXPONENT: u64 = 1 << 52;

const ZEROTH: u64 = 1_023;

// k + 38,400, where k is the greatest whole number not above 256 x.
fn steps_of(x: f32) -> u64
    requires gain_range { GainRange x }
    requires t { T (fits binary32 x) }
    ensures { (result ≡ steps x) × (result ≤ 46_592) }
{
    let w = 256.0 * float_bits::formats::f32_to_f64(x);
    (BIAS.cast_signed() + std::num::truncating_f64_to_i64(w.floor())).cast_unsigned()
}

// q - 38,400.
fn whole(q: u64) -> f64
    requires { q ≤ 46_592 }
    ensures { result ≡ of_int binary64 (minus q 38_400) }
{
    (q.cast_signed() - BIAS.cast_signed()) as f64
}

// 2 ^ (n - 150), by the exponent's field: the library's `powi` multiplies its way there, and its `exp2` promises no value.
fn two_to(n: u64) -> f64
    requires { n ≤ 182 }
    ensures { result ≡ fin false 1 (minus n 150) }
{
    f64::from_bits((n + (ZEROTH - LEAST)) * EXPONENT)
}

// 2 ^ x, x being in step q: the power at that step, by a table and an exponent, times that of what x is above it, by the series
// 1 + y + y^2 / 2 + y^3 / 6.
fn gain_at(x: f32, q: u64) -> f32
    requires { q ≤ 46_592 }
    ensures { result ≡ gain_at x q }
{
    let r = float_bits::formats::f32_to_f64(x) - whole(q) / 256.0;
    let y = r * LN_2;
    let p = 1.0 + y * (1.0 + y * (0.5 + y * 0.16666666666666666));
    float_narrow::f64_to_f32(powers::power_at(q) * p * two_to(q / 256))
}

// Stands for 2 ^ (energy + mean), the exponent at most 32; NaN counts as 32.
pub fn band_gain(energy: f32, mean: f32) -> f32
    ensures { result ≡ gain_of (add binary32 energy mean) }
{
    let x = float_extremes::min_f32(energy + mean, 32.0);
    if x <= -150.0 {
        return 0.0;
    }
    gain_at(x, steps_of(x))
}
