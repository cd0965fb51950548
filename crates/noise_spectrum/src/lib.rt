// The spectrum of a noise block: noise at unit energy in each band, times the band's gain, up to a bound.

#![tactic(auto)]

ghost use Rattle.std.specs.Prelude.{◌≡◌, ◌*◌, ◌≤◌, length};
ghost use Rattle.custom_mode.specs.Mode.{bands, max_bands, last_edge};
ghost use Rattle.loops.specs.Fold.{fold_range};
ghost use Rattle.reply.specs.Reply.{replied, reply_if, value_or};
ghost use Rattle.noise_shape.specs.Shape.{shaped};
ghost use Rattle.noise_spectrum.specs.Spectrum.{gain_turn, bound, spectrum_over, span_fits, spectrum_takes};

use band_gain::band_gain;
use buffers::scale;
use custom_mode::standard::{BANDS, MAX_BANDS, SHORT_BLOCK, band_edge, mean_energy};
use noise_shape::{FACTOR_MOST, noise_shape};
use reply::Refused;

// The bands that get a gain, from start to just below end, and what the output's rate is divided by.
#[derive(Clone, Copy)]
pub struct Span {
    pub start: usize,
    pub end: usize,
    pub downsample: usize,
}

impl Span {
    // End at least start and at most 21, and a factor of downsampling.
    #[tactic(auto, using(std::proofs::lemmas::Bool::Decides::nat_tests), unfolding(crate::specs::Spectrum::span_fits))]
    pub fn fits(self) -> bool
        ensures { result ≡ span_fits self.start self.end self.downsample }
    {
        self.start <= self.end && self.end <= BANDS && 1 <= self.downsample
    }
}

// The bands of a span at a block factor. The most m is stands by number: in a ghost field
// a constant wants an import of its own, which is no plainer.
#[derive(Clone, Copy)]
struct Bands {
    m: usize,
    span: Span,
    ghost small: { m ≤ 8 },
    ghost some: { span.start ≤ span.end },
    ghost last: { span.end ≤ bands },
    ghost every: { 1 ≤ span.downsample },
}

impl Bands {
    // Each band times its gain. The walk over the bands is that of `noise_shape`: one for both would be public, and ask of
    // its caller that its closure may be called, where no public function asks anything.
    #[tactic(auto, using(noise_shape::proofs::Calls::ends))]
    fn apply_gains(self, bins: &mut [f32], energies: &[f32])
        requires { (self.m * last_edge ≤ length bins.old) × (length energies.now ≡ max_bands) }
        ensures { bins.new ≡ fold_range (gain_turn self.m energies.now) bins.old self.span.start self.span.end }
    {
        // By number: a band's edges are its number's and the next one's.
        for i in self.span.start..self.span.end {
            let g = band_gain(energies[i], mean_energy(i));
            let a = self.m * band_edge(i);
            let e = self.m * band_edge(i + 1);
            scale(&mut bins[a..e], g);
        }
    }

    // Where the spectrum ends: at the last band's edge, or where the output's rate ends, which without downsampling is past it.
    fn bound(self) -> usize
        ensures { (result ≡ bound self.m self.span.end self.span.downsample) × (result ≤ self.m * last_edge) }
    {
        let edge = self.m * band_edge(self.span.end);
        edge.min(SHORT_BLOCK * self.m / self.span.downsample)
    }
}

// A block factor of at most 8, a span that fits, 25 energies, and 120 m bins.
#[tactic(auto, using(std::proofs::lemmas::Bool::Decides::nat_tests), unfolding(crate::specs::Spectrum::spectrum_takes, crate::specs::Spectrum::spectrum_fits))]
fn spectrum_takes(m: usize, span: Span, energies: usize, size: usize) -> bool
    ensures { result ≡ spectrum_takes m span.start span.end span.downsample energies size }
{
    m <= FACTOR_MOST && span.fits() && energies == MAX_BANDS && size == SHORT_BLOCK * m
}

// A channel's spectrum from its 25 energies, over 120 m bins, which come as zeros: answers the seed after all draws. A call with
// another number of bins or energies is promised a refusal: so m stands beside the bins, whose number would say it, and the
// energies are a slice, here and in `apply_gains`.
#[tactic(auto, using(crate::proofs::Calls::takes))]
pub fn noise_spectrum(
    bins: &mut [f32],
    m: usize,
    span: Span,
    seed: u32,
    energies: &[f32],
) -> Result<u32, Refused>
    ensures { replied result (shaped bins.new (value_or seed result))
        ≡ reply_if (spectrum_takes m span.start span.end span.downsample (length energies.now) (length bins.old))
        (spectrum_over m span.start span.end span.downsample seed energies.now bins.old) (shaped bins.old seed) }
{
    if !spectrum_takes(m, span, energies.len(), bins.len()) {
        return Err(Refused);
    }
    let after = noise_shape(bins, m, span.start, seed)?;
    let heard = Bands { m, span };
    heard.apply_gains(bins, energies);
    bins[heard.bound()..].fill(0.0);
    Ok(after)
}
