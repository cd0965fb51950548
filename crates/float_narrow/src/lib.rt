// An f64 to the nearest f32, in the order of IEEE 754-2019, clause 4.3.1 (round_ties_to_even); what is quoted is its words.
// So it is written out, in place of the library's `std::num::nearest_f64_to_f32_with_nan`: what `clause` promises stays.

#![tactic(auto)]

ghost use Rattle.std.specs.Prelude.{◌≡◌, not, ◌+◌, ◌*◌, ◌/◌, ◌%◌, ◌<◌, ◌≤◌, ◌^◌, T};
ghost use Rattle.std.specs.Float.{binary32, binary64};
ghost use Rattle.std.specs.Float.Ieee.{is_nan, of_bits, to_bits};
ghost use Rattle.float_narrow.specs.Narrow.{narrow};
ghost use Rattle.float_narrow.specs.Clause.{clause, delivered};
ghost use Rattle.float_narrow.specs.Steps.{Magnitude};

// An f64's bits are its exponent's field times this, and the digits after the leading one.
const LEADING: u64 = 1 << 52;

// The same of an f32.
const LEADING_F32: u64 = 1 << 23;

// How many units u are nearest to q. By tests, each beside the clause's words: a `match` on `cmp` would be no plainer.
fn nearest(q: u64, u: u64) -> u64
    requires u_nonzero { 0 < u }
    requires u_bound { u ≤ 2 ^ 62 }
    requires q_bound { q < 2 ^ 62 }
    ensures { result ≡ delivered q u }
{
    // "the two nearest floating-point numbers bracketing" it lie u apart, one so far under it, the other so far over it
    let lower = q / u;
    let upper = lower + 1;
    let under = q - lower * u;
    let over = u - under;
    // "the floating-point number nearest to the infinitely precise result shall be delivered"
    if under < over {
        lower
    } else if over < under {
        upper
    } else if lower % 2 == 0 {
        // "equally near": "the one with an even least significant digit"
        lower
    } else {
        upper
    }
}

// The bits, without the sign's, of the number nearest to what an f64's fields e and t stand for, q of 2 ^ (e - 1,075):
// of the numbers with 24 digits, the last of which is 2 ^ -149 or more.
fn nearest_number(e: u64, t: u64) -> u64
    requires t_bound { e * 2 ^ 52 + t < 0x47ef_ffff_f000_0000 }
    requires t_bound_2 { t < 2 ^ 52 }
    ensures { Magnitude e t result }
{
    // where e is 0 no digit leads, but none is left then
    let q = LEADING + t;
    // from 897 = 1,023 - 127 + 1 on an f32 has a leading digit, with e - 897 + 1 for its field
    if e < 897 {
        // the last digit is 2 ^ -149 = 2 ^ (926 - 1,075): so many of q's 53 lie beyond it, and from 54 on none is left
        let beyond = 926 - e;
        if 54 < beyond {
            return 0;
        }
        return nearest(q, 1u64 << beyond);
    }
    // 29 of the 53 lie beyond 24; the leading one counts one up in the field
    (e - 897) * LEADING_F32 + nearest(q, 0x2000_0000)
}

// The sign's bit of an f32 for that of an f64.
fn sign_bit(b: u64) -> u64
    ensures { result ≡ b / 2 ^ 63 * 2 ^ 31 }
{
    (b >> 63) << 31
}

// The bits of the f32 nearest to the f64 whose bits are b. By `as`: they fit, so that a `try_from` could not refuse.
fn narrow_bits(b: u64) -> u32
    requires { T (not (is_nan (of_bits binary64 b))) }
    ensures { result ≡ to_bits binary32 (clause (of_bits binary64 b)) }
{
    // "an infinitely precise result": a larger one has larger bits
    let precise = b % 0x8000_0000_0000_0000;
    // "with no change in sign"
    let sign = sign_bit(b);
    // "with magnitude at least" 2 ^ 127 * (2 - 2 ^ -24) "shall round to infinity"; an infinity lies past it
    if 0x47ef_ffff_f000_0000 <= precise {
        return (sign + 0x7f80_0000) as u32;
    }
    (sign + nearest_number(precise / LEADING, precise % LEADING)) as u32
}

// The f32 nearest to x, a tie to the one with the even significand.
pub fn f64_to_f32(x: f64) -> f32
    ensures { result ≡ narrow x }
{
    if x.is_nan() {
        return f32::NAN;
    }
    f32::from_bits(narrow_bits(x.to_bits()))
}
