// Output rates.
ghost use Rattle.std.specs.Prelude.{◌≡◌};
ghost use Rattle.custom_mode.specs.Rate.{resampling_factor};

// The factor by which 48,000 Hz is divided; other rates have none.
#[tactic(auto, unfolding(crate::specs::Rate::resampling_factor))]
pub fn resampling_factor(rate: u32) -> Option<usize>
    ensures { result ≡ resampling_factor rate }
{
    match rate {
        48_000 => Some(1),
        24_000 => Some(2),
        16_000 => Some(3),
        12_000 => Some(4),
        8_000 => Some(6),
        _ => None,
    }
}
