// The used channels of a whole history: each continued, and what follows taken in.
ghost use Rattle.std.specs.Prelude.{◌≡◌, true, false, ◌+◌, ◌≤◌, length, take, drop};
ghost use Rattle.history.specs.History.{half, overlap, tails, with_tails, tail_list, tail_of};
ghost use Rattle.post_filter.specs.Limits.{filter_fits};
ghost use Rattle.state.specs.Refusal.{lag_least, lag_most};
ghost use Rattle.extrapolate.specs.Extrapolate.{order, extrapolated};
ghost use Rattle.take_in.specs.TakeIn.{longest_frame, extra, tail_after};
ghost use Rattle.pitch_loss.specs.PitchLoss.{pitch_tails};

use crate::Pitch;
use excitation::Voice;
use extrapolate::{LONGEST, extrapolate, extrapolate_pair};
use history::{CHANNEL, EXTRA, HALF, SAMPLES, SECOND_END, SECOND_HALF, WHOLE};
use take_in::take_in;

// A lost frame that is taken: n samples, by a pitch within its limits.
#[derive(Clone, Copy)]
pub(crate) struct Loss {
    pub(crate) n: usize,
    pub(crate) pitch: Pitch,
    ghost frame: { n ≤ longest_frame },
    ghost lag_low: { lag_least ≤ pitch.lag },
    ghost lag_high: { pitch.lag ≤ lag_most },
    ghost filter: { filter_fits pitch.filter ≡ true },
}

impl Loss {
    // What follows each channel, their filters side by side: n samples and 240 more, to the front of e0 and of e1.
    fn continue_both(self, e0: &mut [f32; LONGEST], e1: &mut [f32; LONGEST], h: &[f32; WHOLE])
        ensures { (take (self.n + extra) e0.new
            ≡ extrapolated (self.n + extra) (tails h.now).first.new self.pitch.lag self.pitch.first (take order self.pitch.predictor))
            × (take (self.n + extra) e1.new
            ≡ extrapolated (self.n + extra) (tails h.now).second.new self.pitch.lag self.pitch.first (drop order self.pitch.predictor)) }
    {
        let m = self.n + EXTRA;
        // `as`, here and below: the library has no `From` of a u32 for usize.
        let lag = self.pitch.lag as usize;
        extrapolate_pair(
            &mut e0[..m],
            &mut e1[..m],
            Voice {
                newest: &h[HALF..SAMPLES],
                lag,
                lpc: self.pitch.predictor.first_chunk().unwrap(),
            },
            Voice {
                newest: &h[SECOND_HALF..SECOND_END],
                lag,
                lpc: self.pitch.predictor.last_chunk().unwrap(),
            },
            self.pitch.first,
        )
        .unwrap();
    }

    // The front of e comes in at the end of t, a channel's newest 1,024 and its overlap.
    // t is a slice, as `take_in` asks for one and promises a refusal: an array would be made only to be lent as a slice.
    fn take_front(self, t: &mut [f32], e: &[f32; LONGEST])
        requires { length t.old ≡ half + overlap }
        ensures { t.new ≡ tail_list (tail_after self.n (take (self.n + extra) e.now) self.pitch.filter (tail_of t.old)) }
    {
        take_in(t, self.n, &e[..self.n + EXTRA], self.pitch.filter).unwrap();
    }

    // Mono runs the single filter, stereo the pair.
    // Apart: one function would ask twice which it is, and clear a second buffer for mono.
    pub(crate) fn conceal_mono(self, history: &mut [f32; WHOLE])
        ensures { history.new
            ≡ with_tails history.old
            (pitch_tails false self.n self.pitch.lag self.pitch.first self.pitch.predictor self.pitch.filter (tails history.old)) }
    {
        // The longest frame's, cut to n, here and below: there is no heap.
        let mut e = [0.0; LONGEST];
        extrapolate(
            &mut e[..self.n + EXTRA],
            Voice {
                newest: &history[HALF..SAMPLES],
                lag: self.pitch.lag as usize,
                lpc: self.pitch.predictor.first_chunk().unwrap(),
            },
            self.pitch.first,
        )
        .unwrap();
        self.take_front(&mut history[HALF..CHANNEL], &e);
    }

    pub(crate) fn conceal_stereo(self, history: &mut [f32; WHOLE])
        ensures { history.new
            ≡ with_tails history.old
            (pitch_tails true self.n self.pitch.lag self.pitch.first self.pitch.predictor self.pitch.filter (tails history.old)) }
    {
        let mut e0 = [0.0; LONGEST];
        let mut e1 = [0.0; LONGEST];
        self.continue_both(&mut e0, &mut e1, history);
        self.take_front(&mut history[HALF..CHANNEL], &e0);
        self.take_front(&mut history[SECOND_HALF..WHOLE], &e1);
    }
}
