// Which energies a noise loss reads, and which drop.

#![tactic(auto)]

ghost use Rattle.std.specs.Prelude.{◌≡◌, cond};
ghost use Rattle.std.specs.Float.{binary32};
ghost use Rattle.std.specs.Float.Ieee.{sub};
ghost use Rattle.noise_energies.specs.Energies.{energy_drop, drops, lower_energies, read_energies};

use custom_mode::standard::{ENERGIES, MAX_BANDS};

// From this loss count on a noise loss reads the background's energies, and nothing drops. It is another thing than the count at
// which a pitch is no longer repeated, `FIRST_NOISE` of state, though the same number.
const LATE: u32 = 5;

// How much an energy falls at a loss: more at the first one.
#[tactic(auto, unfolding(crate::specs::Energies::energy_drop))]
fn energy_drop(count: u32) -> f32
    ensures { result ≡ energy_drop count }
{
    if count == 0 { 1.5 } else { 0.5 }
}

// The energy at place i, lower by `by` where it drops. By place: document 01's list is flat.
// Channels, start and end apart, as `lower_energies` takes them: its promise counts by three numbers, and `Settings`, which has
// them all, stands above this crate.
#[tactic(auto, unfolding(crate::specs::Energies::drops))]
fn dropped(energy: f32, i: usize, channels: usize, start: usize, end: usize, by: f32) -> f32
    ensures { result ≡ cond (drops channels start end i) (sub binary32 energy by) energy }
{
    let band = i % MAX_BANDS;
    if i / MAX_BANDS < channels && (start..end).contains(&band) {
        energy - by
    } else {
        energy
    }
}

// The coarse energies of both channels after a noise loss.
pub fn lower_energies(
    coarse: [f32; ENERGIES],
    channels: usize,
    start: usize,
    end: usize,
    count: u32,
) -> [f32; ENERGIES]
    ensures { result ≡ lower_energies channels start end count coarse }
{
    if LATE <= count {
        return coarse;
    }
    let by = energy_drop(count);
    let mut e = coarse;
    for (i, energy) in e.iter_mut().enumerate() {
        *energy = dropped(*energy, i, channels, start, end, by);
    }
    e
}

// The energies that a noise loss reads, the coarse ones being those after the drop.
#[tactic(auto, unfolding(crate::specs::Energies::read_energies))]
pub fn read_energies(
    lowered: [f32; ENERGIES],
    background: [f32; ENERGIES],
    count: u32,
) -> [f32; ENERGIES]
    ensures { result ≡ read_energies count lowered background }
{
    if LATE <= count { background } else { lowered }
}
