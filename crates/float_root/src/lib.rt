// The f32 square root, by whole numbers. In place of the library's `f32::sqrt`: what `sqrt_of` promises stays, a definition of its own.

#![tactic(auto)]

ghost use Rattle.std.specs.Prelude.{◌≡◌, ◌+◌, ◌*◌, ◌/◌, ◌%◌, ◌<◌, ◌≤◌, ◌^◌};
ghost use Rattle.std.specs.Float.{binary32};
ghost use Rattle.float_root.specs.Root.{sqrt_of};
ghost use Rattle.float_bits.specs.Steps.{significand};
ghost use Rattle.float_root.specs.Steps.{ScaledTo, RootBits};

// An f32's bits are its exponent's field times this, and the digits after the leading one. float_narrow has the same for itself:
// one for both would be public for one shift.
const LEADING: u64 = 1 << 23;

// The largest whole number whose square is at most m. The loop halves an interval: it counts no index.
// Of 48 digits it takes 24 halvings, where the library's `u64::isqrt` takes 32: 55 ns for a root, and not 100.
fn isqrt(m: u64) -> u64
    requires { m < 2 ^ 48 }
    ensures { (result * result ≤ m) × (m < (result + 1) * (result + 1)) }
{
    let mut lo = 0u64;
    let mut hi = 0x100_0000u64;
    while lo + 1 < hi {
        let mid = (lo + hi) / 2;
        if mid * mid <= m {
            lo = mid;
        } else {
            hi = mid;
        }
    }
    lo
}

// m * 4 ^ k
#[derive(Clone, Copy)]
struct Scaled {
    m: u64,
    k: u64,
}

// q * 2 ^ h with 47 or 48 digits, 16 or 17 below 64, before an even power of two: m goes up by pairs of digits.
fn scale(q: u64, h: u64) -> Scaled
    requires q_nonzero { 0 < q }
    requires q_bound { q < 2 ^ 24 }
    requires le_h { 149 ≤ h }
    requires h_bound { h ≤ 402 }
    ensures { ScaledTo (q * 2 ^ h) result.m result.k }
{
    let m = q * (1 + h % 2);
    let pairs = (m.leading_zeros() - 16) / 2;
    Scaled {
        m: m << (2 * pairs),
        k: h / 2 - u64::from(pairs),
    }
}

// The f32 whose bits are b, in units of 2 ^ -298, so that its root is in those of 2 ^ -149: m's digits, before an even power of two.
fn radicand(b: u64) -> Scaled
    requires b_nonzero { 0 < b }
    requires b_bound { b < 0x7f80_0000 }
    ensures { ScaledTo (significand binary32 (b / 2 ^ 23) (b % 2 ^ 23) * 2 ^ 149) result.m result.k }
{
    let e = b / LEADING;
    let t = b % LEADING;
    // t or LEADING + t units of 2 ^ -149, of which each is 2 ^ 149 of the others
    if e == 0 {
        return scale(t, 149);
    }
    scale(LEADING + t, e + 148)
}

// The bits of the square root of the f32 whose bits are b: the leading digit of its 24 counts one up in the exponent's field.
fn root_bits(b: u64) -> u64
    requires b_nonzero { 0 < b }
    requires b_bound { b < 0x7f80_0000 }
    ensures { RootBits (significand binary32 (b / 2 ^ 23) (b % 2 ^ 23) * 2 ^ 149) result }
{
    let Scaled { m, k } = radicand(b);
    let s = isqrt(m);
    // nearer to s + 1 where m lies past s * s + s, and never halfway, as (s + 1 / 2) ^ 2 is no whole number
    let nearest = if s < m - s * s { s + 1 } else { s };
    k * LEADING + nearest
}

// The f32 nearest to the square root of x. The root's bits by `as`: they fit, so that a `try_from` could not refuse.
pub fn sqrt_f32(x: f32) -> f32
    ensures { result ≡ sqrt_of x }
{
    if x.is_nan() {
        return x;
    }
    match x.to_bits() {
        0 | 0x8000_0000 | 0x7f80_0000 => x,
        b if b > 0x8000_0000 => f32::NAN,
        b => f32::from_bits(root_bits(u64::from(b)) as u32),
    }
}
