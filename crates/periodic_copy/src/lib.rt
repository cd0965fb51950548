// The last pitch cycle of the excitation, repeated.

#![tactic(auto)]

ghost use Rattle.std.specs.Prelude.{◌≡◌, ◌≤◌, ◌<◌, length};
ghost use Rattle.reply.specs.Reply.{replied, reply_if, value_or};
ghost use Rattle.buffers.specs.Buffers.{zero32};
ghost use Rattle.history.specs.History.{half};
ghost use Rattle.periodic_copy.specs.Copy.{stepped, decayed, periodic_copy, copied_energy, cycle, cycle_takes};

use history::HALF;
use reply::Refused;

// Where in the excitation the copy stands, and what the samples are multiplied by from there on.
#[derive(Clone, Copy)]
struct Place {
    at: usize,
    decay: f32,
}

impl Place {
    // The next place: where the excitation ends, one lag back with the decay squared.
    #[tactic(auto, using(std::proofs::lemmas::Bool::Decides::nat_tests), unfolding(crate::specs::Copy::stepped, crate::specs::Copy::decayed))]
    fn next(self, lag: usize) -> Place
        requires { (self.at < half) × (lag ≤ half) }
        ensures { (result.at ≡ stepped lag self.at) × (result.decay ≡ decayed self.at self.decay) }
    {
        let at = self.at + 1;
        if at == HALF {
            Place {
                at: at - lag,
                decay: self.decay * self.decay,
            }
        } else {
            Place { at, ..self }
        }
    }
}

// Fills e with the last cycle of exc, repeated, the decay squared at each wrap.
// Returns the energy of the newest samples at the same positions.
// Refused, with e as lent: newest not of 1,024 samples, a lag of 0 or above 1,024.
// Samples, lag and decay apart, not a `Voice`: a copy needs no predictor.
#[tactic(auto, using(std::proofs::lemmas::Bool::Decides::nat_tests), unfolding(reply::specs::Reply::reply_if, crate::specs::Copy::cycle_takes))]
pub fn periodic_copy(
    e: &mut [f32],
    exc: &[f32; HALF],
    newest: &[f32],
    lag: usize,
    decay: f32,
) -> Result<f32, Refused>
    ensures { replied result (cycle e.new (value_or zero32 result))
        ≡ reply_if (cycle_takes (length newest.now) lag)
        (cycle (periodic_copy exc.now lag decay (length e.old)) (copied_energy newest.now lag (length e.old)))
        (cycle e.old zero32) }
{
    // Two tests, not `contains`: the proof of the copy has both limits from them.
    if newest.len() != HALF || lag < 1 || HALF < lag {
        return Err(Refused);
    }
    let mut place = Place {
        at: HALF - lag,
        decay,
    };
    let mut energy = 0.0;
    for sample in e.iter_mut() {
        *sample = place.decay * exc[place.at];
        let heard = newest[place.at];
        energy += heard * heard;
        place = place.next(lag);
    }
    Ok(energy)
}
