// The post-filter's setting: its limits, and the factors of its taps.

#![tactic(auto)]

ghost use Rattle.std.specs.Prelude.{◌≡◌};
ghost use Rattle.post_filter.specs.Limits.{filter_fits};
ghost use Rattle.post_filter.specs.Gains.{comb_gains};

// A setting: the gain, the pitch period and which row of tap factors. Numbers, as a state's words have them: any can come, and
// the limits refuse the rest.
#[derive(Clone, Copy, Debug, PartialEq)]
pub struct Filter {
    pub gain: f32,
    pub period: u32,
    pub tapset: u32,
}

pub const PERIOD_LEAST: u32 = 15;

pub const PERIOD_MOST: u32 = 1_022;

pub const TAPSET_MOST: u32 = 2;

// Whether period and tapset are within their limits; the gain may be any.
#[tactic(auto, using(std::proofs::lemmas::Bool::Decides::nat_tests), unfolding(crate::specs::Limits::filter_fits))]
pub fn filter_fits(f: Filter) -> bool
    ensures { result ≡ filter_fits f }
{
    (PERIOD_LEAST..=PERIOD_MOST).contains(&f.period) && f.tapset <= TAPSET_MOST
}

// The tapset's three factors; a tapset above 2 counts as 2: total, so that no step that has checked the limits refuses again.
#[tactic(auto, using(crate::proofs::Laws::comb_last), unfolding(crate::specs::Gains::comb_gains))]
pub fn comb_gains(tapset: u32) -> [f32; 3]
    ensures { result ≡ comb_gains tapset }
{
    match tapset {
        0 => [0.30664062, 0.21704102, 0.12963867],
        1 => [0.4638672, 0.2680664, 0.0],
        _ => [0.7998047, 0.10009766, 0.0],
    }
}
