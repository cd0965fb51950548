// Rust's `f32::min` and `f32::max`, which leave open which of two zeros they answer: here it is the first, as `min_of` and
// `max_of` promise. An expression each.

#![tactic(auto)]

ghost use Rattle.std.specs.Prelude.{◌≡◌};
ghost use Rattle.float_extremes.specs.Extremes.{min_of, max_of};

// The lesser of x and y; where one is NaN, the other: no comparison with NaN is true.
#[tactic(auto, unfolding(crate::specs::Extremes::min_of))]
pub fn min_f32(x: f32, y: f32) -> f32
    ensures { result ≡ min_of x y }
{
    if x.is_nan() || y < x { y } else { x }
}

// The greater of x and y; where one is NaN, the other: no comparison with NaN is true.
#[tactic(auto, unfolding(crate::specs::Extremes::max_of))]
pub fn max_f32(x: f32, y: f32) -> f32
    ensures { result ≡ max_of x y }
{
    if x.is_nan() || x < y { y } else { x }
}
