// The coarse-to-fine lag search (`pitch_search`) over 1,024 samples at half rate.

#![tactic(auto)]

ghost use Rattle.std.specs.Prelude.{◌≡◌, ◌+◌, ◌*◌, ◌-◌, ◌≤◌, ◌<◌, length};
ghost use Rattle.loops.specs.Front.{tab};
ghost use Rattle.plc_search.specs.Search.{every_second, fine_at, coarse_best, interpolated, refined, pitch_search};
ghost use Rattle.plc_search.specs.Rows.{near_row, near_at};
ghost use Rattle.plc_search.specs.declared.TheConstants.{PLACES4};

use history::{HALF, LAG_LEAST, LAG_MOST};
use plc_best::find_best_pitch;
use plc_correlate::correlate;
use std::array;

// At half rate: where the newest samples start, the longest lag after the first place.
const LATER: usize = LAG_MOST / 2;

// At half rate: how many of the newest samples are compared.
pub const COMPARED: usize = HALF - LATER;

// At half rate: how many places the newest samples are compared with, one for each second lag.
pub const PLACES: usize = (LAG_MOST - LAG_LEAST) / 2 + 1;

// The last place: like the first it has one neighbour, and stays.
const LAST: usize = PLACES - 1;

// At quarter rate: how many of the newest samples are compared.
pub const COMPARED4: usize = COMPARED / 2;

// At quarter rate: how many places the newest samples are compared with.
pub const PLACES4: usize = PLACES / 2;

// At quarter rate: how many samples are read, from the first place on.
pub const SAMPLES4: usize = COMPARED4 + PLACES4;

// A neighbour is close where it stands above the other by more than this part of what the place itself does.
const CLOSE: f32 = 0.7;

// Every second sample.
fn every_second<const N: usize>(x: &[f32]) -> [f32; N]
    requires { 2 * N ≤ length x.now + 1 }
    ensures { result ≡ every_second x.now N }
{
    array::from_fn(|j| x[2 * j])
}

// A place at quarter rate.
#[derive(Clone, Copy)]
struct Coarse {
    at: usize,
    ghost below: { at < PLACES4 },
}

impl Coarse {
    // The first place at half rate within 2 of twice this one.
    fn first_near(self) -> usize
        ensures { result ≡ 2 * self.at - 2 }
    {
        (2 * self.at).saturating_sub(2)
    }
}

// Five correlations at half rate, which hold all those within 2 of twice the place.
#[derive(Clone, Copy)]
struct Near {
    place: Coarse,
    row: [f32; 5],
}

impl Near {
    fn around(y: &[f32; HALF], place: Coarse) -> Near
        ensures place { result.place.at ≡ place.at }
        ensures values { result.row ≡ near_row y.now place.at }
    {
        let lo = place.first_near();
        let mut row = [0.0f32; 5];
        correlate(&y[LATER..], &y[lo..], &mut row).unwrap();
        Near { place, row }
    }

    // What stands there for place i, where i is near.
    #[tactic(auto, unfolding(crate::specs::Rows::near_at, crate::specs::Search::near))]
    fn at(&self, i: usize) -> Option<f32>
        requires { i < PLACES }
        ensures { result ≡ near_at self.now.row self.now.place.at i }
    {
        let b = self.place.at;
        (2 * b <= i + 2 && i <= 2 * b + 2).then(|| self.row[i - self.place.first_near()])
    }
}

// The finer correlations around twice the one and twice the other; 0 elsewhere.
fn fine_row(y: &[f32; HALF], first: Coarse, second: Coarse) -> [f32; PLACES]
    ensures { result ≡ tab (fine_at y.now first.at second.at) PLACES }
{
    let near0 = Near::around(y, first);
    let near1 = Near::around(y, second);
    array::from_fn(|i| near0.at(i).or(near1.at(i)).unwrap_or(0.0))
}

// The two best places at quarter rate.
fn coarse_best(y: &[f32; HALF]) -> (Coarse, Coarse)
    ensures { (result.0.at ≡ (coarse_best y.now).first.at) × (result.1.at ≡ (coarse_best y.now).second.at) }
{
    let x4: [f32; COMPARED4] = every_second(&y[LATER..]);
    let y4: [f32; SAMPLES4] = every_second(y);
    // One sum more than is read: a multiple of 4 of them is made faster.
    let mut xcorr = [0.0f32; PLACES4 + 1];
    correlate(&x4, &y4, &mut xcorr).unwrap();
    let (first, second) = find_best_pitch(&xcorr[..PLACES4], &y4, COMPARED4).unwrap();
    (Coarse { at: first }, Coarse { at: second })
}

// Twice p, less 1 where the correlation after it comes close to its own, plus 1 where the one before it does.
#[tactic(auto, unfolding(crate::specs::Search::interpolated))]
fn interpolate(p: usize, a: f32, b: f32, c: f32) -> usize
    requires { (0 < p) × (p < LAST) }
    ensures { result ≡ interpolated p a b c }
{
    if c - a > CLOSE * (b - a) {
        2 * p - 1
    } else if a - c > CLOSE * (b - c) {
        2 * p + 1
    } else {
        2 * p
    }
}

// The place at full rate.
#[tactic(auto, unfolding(crate::specs::Search::refined))]
fn refine(xcorr: &[f32; PLACES], p: usize) -> usize
    requires { p < PLACES }
    ensures { result ≡ refined xcorr.now p }
{
    if 0 < p && p < LAST {
        interpolate(p, xcorr[p - 1], xcorr[p], xcorr[p + 1])
    } else {
        2 * p
    }
}

// The offset of the best lag, from 0 to 618: the lag is 720 less it.
pub fn pitch_search(y: &[f32; HALF]) -> usize
    ensures { result ≡ pitch_search y.now }
{
    let (first, second) = coarse_best(y);
    let xcorr = fine_row(y, first, second);
    let (best, _) = find_best_pitch(&xcorr, y, COMPARED).unwrap();
    refine(&xcorr, best)
}
