// Noise at unit energy in every band from start to the last.

#![tactic(auto)]

ghost use Rattle.std.specs.Prelude.{◌≡◌, ◌*◌, ◌≤◌, length};
ghost use Rattle.reply.specs.Reply.{replied, reply_if, value_or};
ghost use Rattle.draw.specs.Draw.{draws};
ghost use Rattle.custom_mode.specs.Mode.{bands, last_edge};
ghost use Rattle.noise_shape.specs.Shape.{band_noise, shaped, noise_shape, shape_takes};

use band_quant::renormalise_vector;
use custom_mode::standard::{BANDS, LAST_EDGE, LM_MOST, band_edge};
use draw::noise_fill;
use reply::Refused;

// The largest block factor.
pub const FACTOR_MOST: usize = 1 << LM_MOST;

fn band_noise(part: &mut [f32], seed: u32) -> u32
    ensures { (result ≡ draws (length part.old) seed) × (part.new ≡ band_noise (length part.old) seed) }
{
    let s = noise_fill(part, seed);
    renormalise_vector(part, 1.0);
    s
}

// Every band from start to the last is drawn, though the end band may be lower: the seed moves on by all of them.
// `noise_spectrum` walks over the bands in the same way: one walk for both would be public, and ask of its caller that its
// closure may be called, where no public function asks anything. Each parameter is handed on as it
// came: a struct of them would be made and taken apart once.
#[tactic(auto, using(crate::proofs::Calls::ends))]
fn shape_each(bins: &mut [f32], m: usize, start: usize, seed: u32) -> u32
    requires { (m ≤ FACTOR_MOST) × (start ≤ bands) × (m * last_edge ≤ length bins.old) }
    ensures { (result ≡ (noise_shape m start seed bins.old).seed) × (bins.new ≡ (noise_shape m start seed bins.old).bins) }
{
    let mut s = seed;
    // By number: a band's edges are its number's and the next one's.
    for i in start..BANDS {
        let a = m * band_edge(i);
        let e = m * band_edge(i + 1);
        s = band_noise(&mut bins[a..e], s);
    }
    s
}

// A block factor of at most 8, a start of at most 21, and bins for all bands.
#[tactic(auto, using(std::proofs::lemmas::Bool::Decides::nat_tests), unfolding(crate::specs::Shape::shape_takes))]
fn shape_fits(m: usize, start: usize, size: usize) -> bool
    ensures { result ≡ shape_takes m start size }
{
    m <= FACTOR_MOST && start <= BANDS && m * LAST_EDGE <= size
}

// Noise over the bins lent, at block factor m: answers the seed after all draws. Refused, with the bins as lent: a factor
// above 8, a start above 21, fewer than 100 m bins. Of more bins m cannot be found from their number, so it is told.
pub fn noise_shape(bins: &mut [f32], m: usize, start: usize, seed: u32) -> Result<u32, Refused>
    ensures { replied result (shaped bins.new (value_or seed result))
        ≡ reply_if (shape_takes m start (length bins.old)) (noise_shape m start seed bins.old) (shaped bins.old seed) }
{
    if !shape_fits(m, start, bins.len()) {
        return Err(Refused);
    }
    Ok(shape_each(bins, m, start, seed))
}
