// The two-best tracker over a sweep of correlations (`find_best_pitch`).

#![tactic(auto)]

ghost use Rattle.std.specs.Prelude.{◌≡◌, ◌+◌, ◌≤◌, length};
ghost use Rattle.plc_best.specs.Best.{beats, ranked, considered, find_best_pitch, best_pitches};

// A place, with its squared correlation and the energy of the samples there.
// Public, as `Best` is: definitions of plc_search are of them, and could name no private struct.
#[derive(Clone, Copy)]
pub struct Candidate {
    pub num: f32,
    pub den: f32,
    pub at: usize,
}

impl Candidate {
    // Whether its squared correlation is a greater part of its energy than the other's is of its own.
    #[tactic(auto, unfolding(crate::specs::Best::beats))]
    fn beats(self, other: Candidate) -> bool
        ensures { result ≡ beats self other }
    {
        self.num * other.den > other.num * self.den
    }
}

// The two best places so far.
#[derive(Clone, Copy)]
pub struct Best {
    pub first: Candidate,
    pub second: Candidate,
}

impl Best {
    // A candidate becomes the best, the second best, or neither.
    #[tactic(auto, unfolding(crate::specs::Best::ranked))]
    fn ranked(self, c: Candidate) -> Best
        ensures { result ≡ ranked self c }
    {
        if !c.beats(self.second) {
            return self;
        }
        if c.beats(self.first) {
            Best {
                first: c,
                second: self.first,
            }
        } else {
            Best { second: c, ..self }
        }
    }

    // A place is a candidate where its correlation is above 0.
    #[tactic(auto, unfolding(crate::specs::Best::considered))]
    fn considered(self, x: f32, syy: f32, at: usize) -> Best
        ensures { result ≡ considered self x syy at }
    {
        if x > 0.0 {
            self.ranked(Candidate {
                num: x * x,
                den: syy,
                at,
            })
        } else {
            self
        }
    }
}

// The two best places; the energy of len samples runs along.
fn two_best(xcorr: &[f32], y: &[f32], len: usize) -> Best
    requires { len + length xcorr.now ≤ length y.now }
    ensures { result ≡ find_best_pitch xcorr.now y.now len (length xcorr.now) }
{
    let none = Candidate {
        num: -1.0,
        den: 0.0,
        at: 0,
    };
    let mut best = Best {
        first: none,
        second: Candidate { at: 1, ..none },
    };
    let mut syy = buffers::energy(&y[..len], 1.0);
    // The newest sample stands len places after the oldest.
    for (i, ((x, oldest), newest)) in xcorr.iter().zip(y).zip(&y[len..]).enumerate() {
        best = best.considered(*x, syy, i);
        syy = float_extremes::max_f32(syy + (newest * newest - oldest * oldest), 1.0);
    }
    best
}

// The two best of the places of xcorr, or none where y does not reach len samples further; it may reach beyond them, so that no length says len.
#[tactic(auto, unfolding(crate::specs::Best::best_pitches))]
pub fn find_best_pitch(xcorr: &[f32], y: &[f32], len: usize) -> Option<(usize, usize)>
    ensures { result ≡ best_pitches xcorr.now y.now len (length xcorr.now) }
{
    // y.len() < xcorr.len() + len, asked without an overflow
    if y.len() < xcorr.len() || y.len() - xcorr.len() < len {
        return None;
    }
    let best = two_best(xcorr, y, len);
    Some((best.first.at, best.second.at))
}
