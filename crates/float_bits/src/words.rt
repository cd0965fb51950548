// 32-bit words: as floats, as noise values, and multiplied.
ghost use Rattle.std.specs.Prelude.{◌≡◌, ℕ, from_bits, to_bits};
ghost use Rattle.std.specs.Float.{binary32};
ghost use Rattle.float_bits.specs.Words.{noise_value, wrapping_mul};

use std::num::{f32_from_bits_with_nan, f32_to_bits_with_nan};

// What one 32-bit word holds. Not `From`: between u32 and f32 that would be the number, and not its bits.
pub trait Word: Copy {
    // the value of a word, and the word of a value
    ghost of_word: { ℕ → Self };

    ghost word_of: { Self → ℕ };

    fn from_word(w: u32) -> Self
        ensures { result ≡ of_word w };

    fn to_word(self) -> u32
        ensures { result ≡ word_of self };
}

impl Word for u32 {
    ghost of_word = { λ w. w };

    ghost word_of = { λ x. x };

    fn from_word(w: u32) -> u32 {
        w
    }

    fn to_word(self) -> u32 {
        self
    }
}

impl Word for f32 {
    ghost of_word = { from_bits binary32 };

    ghost word_of = { to_bits binary32 };

    // Every NaN's word is NaN.
    fn from_word(w: u32) -> f32 {
        f32_from_bits_with_nan(w)
    }

    // A NaN's word is 7FC00000.
    fn to_word(self) -> u32 {
        f32_to_bits_with_nan(self)
    }
}

// The word read as signed and shifted right by 20, from -2,048 to 2,047. By `as`: std has no `From` of i32 to f32.
pub fn noise_value(w: u32) -> f32
    ensures { result ≡ noise_value w }
{
    (w.cast_signed() >> 20) as f32
}

// The low 32 bits of the product: document 01's own helper for the draw.
#[tactic(auto, unfolding(crate::specs::Words::wrapping_mul))]
pub fn wrapping_mul_u32(a: u32, b: u32) -> u32
    ensures { result ≡ wrapping_mul a b }
{
    a.wrapping_mul(b)
}
