// The excitation of the newest 1,024 samples, and its last pitch cycle repeated.

#![tactic(auto)]

ghost use Rattle.std.specs.Prelude.{◌≡◌, length};
ghost use Rattle.reply.specs.Reply.{replied, reply_if, value_or};
ghost use Rattle.buffers.specs.Buffers.{zero32};
ghost use Rattle.periodic_copy.specs.Copy.{cycle, cycle_takes};
ghost use Rattle.excitation.specs.Cycle.{pitch_cycle};

use history::HALF;
use periodic_copy::periodic_copy;
use plc_fir::celt_fir_from;
use plc_pad::ORDER;
use reply::Refused;

mod decay;

// What a channel is continued from: its newest samples, the lag of their pitch, the predictor fitted to them.
// newest is a slice: another length than 1,024 is promised a refusal.
#[derive(Clone, Copy)]
pub struct Voice<'a> {
    pub newest: &'a [f32],
    pub lag: usize,
    pub lpc: &'a [f32; ORDER],
}

// Fills e with the last pitch cycle of the voice's excitation; `mem` is the filter's memory, the most recent first.
// Returns the energy of the history that e stands for.
// Refused, with e as lent: newest not of 1,024 samples, a lag of 0 or above 1,024.
#[tactic(auto, using(std::proofs::lemmas::Bool::Decides::nat_tests), unfolding(reply::specs::Reply::reply_if, periodic_copy::specs::Copy::cycle_takes))]
pub fn repeat_cycle(e: &mut [f32], voice: Voice, mem: &[f32; ORDER]) -> Result<f32, Refused>
    ensures { replied result (cycle e.new (value_or zero32 result))
        ≡ reply_if (cycle_takes (length voice.entry.newest.now) voice.entry.lag)
        (pitch_cycle (length e.old) voice.entry.lpc.now mem.now voice.entry.newest.now voice.entry.lag) (cycle e.old zero32) }
{
    let Voice { newest, lag, lpc } = voice;
    let mut exc = <[f32; HALF]>::try_from(newest)?;
    let period = decay::decay_period(lag);
    // Of the excitation, the last two periods are all that is read.
    let from = HALF - 2 * period;
    celt_fir_from(&mut exc, from, lpc, mem)?;
    let decay = decay::pitch_decay(&exc, lag);
    periodic_copy(e, &exc, newest, lag, decay)
}
