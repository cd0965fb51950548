// The newest 1,024 samples continued by their last pitch cycle: faded, filtered and guarded.

#![tactic(auto)]

ghost use Rattle.std.specs.Prelude.{◌≡◌, ◌≤◌, ◌<◌, length};
ghost use Rattle.reply.specs.Reply.{replied, reply_if};
ghost use Rattle.history.specs.History.{half};
ghost use Rattle.plc_fir.specs.Fir.{celt_fir};
ghost use Rattle.plc_iir_pair.specs.Pair.{channels};
ghost use Rattle.periodic_copy.specs.Copy.{copied_energy};
ghost use Rattle.extrapolate.specs.Extrapolate.{fade, recent, faded_cycle, extrapolated, extrapolate_takes, extrapolate_pair_takes};

use energy_guard::energy_guard;
use excitation::{Voice, repeat_cycle};
use history::HALF;
use plc_iir::celt_iir_inplace;
use plc_iir_pair::celt_iir_pair;
use plc_pad::ORDER;
use reply::Refused;

// What is extrapolated at most: as many as the filter takes.
pub use plc_iir::LONGEST;

// Here and below `first` answers a question, whether no loss came before:
// a bool, since a caller has it as a comparison, `loss_count == 0`.
#[tactic(auto, unfolding(crate::specs::Extrapolate::fade))]
fn fade_of(first: bool) -> f32
    ensures { result ≡ fade first }
{
    if first { 1.0 } else { 0.8 }
}

// The newest 24, the most recent first, as the filters' contracts count their memory.
// A slice here and below, as a `Voice` has it.
fn most_recent(newest: &[f32]) -> [f32; ORDER]
    requires { length newest.now ≡ half }
    ensures { result ≡ recent newest.now }
{
    let mut mem = [0.0; ORDER];
    mem.copy_from_slice(&newest[HALF - ORDER..]);
    mem.reverse();
    mem
}

// Fills e with the filter's input, the faded cycle.
// Returns the filter's memory, and the energy of the history that the cycle stands for.
fn filter_input(e: &mut [f32], voice: Voice, first: bool) -> ([f32; ORDER], f32)
    requires { (length voice.newest.now ≡ half) × (0 < voice.lag) × (voice.lag ≤ half) }
    ensures { (result.0 ≡ recent voice.entry.newest.now)
        × (e.new
        ≡ faded_cycle (length e.old) (celt_fir voice.entry.lpc.now result.0 voice.entry.newest.now) voice.entry.lag first)
        × (result.1 ≡ copied_energy voice.entry.newest.now voice.entry.lag (length e.old)) }
{
    let mem = most_recent(voice.newest);
    let energy = repeat_cycle(e, voice, &mem).unwrap();
    buffers::scale(e, fade_of(first));
    (mem, energy)
}

#[tactic(auto, using(std::proofs::lemmas::Bool::Decides::nat_tests), unfolding(crate::specs::Extrapolate::extrapolate_takes, periodic_copy::specs::Copy::cycle_takes))]
fn takes(m: usize, voice: Voice) -> bool
    ensures { result ≡ extrapolate_takes m (length voice.entry.newest.now) voice.entry.lag }
{
    m <= LONGEST && voice.newest.len() == HALF && (1..=HALF).contains(&voice.lag)
}

// Fills e with what follows the voice.
// Refused, with e as lent: e above 1,200 samples, newest not of 1,024, a lag of 0 or above 1,024.
pub fn extrapolate(e: &mut [f32], voice: Voice, first: bool) -> Result<(), Refused>
    ensures { replied result e.new
        ≡ reply_if (extrapolate_takes (length e.old) (length voice.entry.newest.now) voice.entry.lag)
        (extrapolated (length e.old) voice.entry.newest.now voice.entry.lag first voice.entry.lpc.now) e.old }
{
    if !takes(e.len(), voice) {
        return Err(Refused);
    }
    let (mem, energy) = filter_input(e, voice, first);
    celt_iir_inplace(e, voice.lpc, &mem)?;
    energy_guard(e, energy);
    Ok(())
}

// Both channels, not `extrapolate` twice: their all-pole filters run side by side, in the time of one.
// Buffers and voices apart: the buffers are changed, and the voices are not.
// Refused where a single channel is, and where e0 and e1 differ in length.
#[tactic(auto, using(std::proofs::lemmas::Bool::Decides::nat_tests), unfolding(reply::specs::Reply::reply_if, crate::specs::Extrapolate::extrapolate_pair_takes))]
pub fn extrapolate_pair(
    e0: &mut [f32],
    e1: &mut [f32],
    voice0: Voice,
    voice1: Voice,
    first: bool,
) -> Result<(), Refused>
    ensures { replied result (channels e0.new e1.new)
        ≡ reply_if
        (extrapolate_pair_takes (length e0.old) (length e1.old) (length voice0.entry.newest.now) (length voice1.entry.newest.now)
        voice0.entry.lag voice1.entry.lag)
        (channels (extrapolated (length e0.old) voice0.entry.newest.now voice0.entry.lag first voice0.entry.lpc.now)
        (extrapolated (length e1.old) voice1.entry.newest.now voice1.entry.lag first voice1.entry.lpc.now))
        (channels e0.old e1.old) }
{
    if e0.len() != e1.len() || !takes(e0.len(), voice0) || !takes(e1.len(), voice1) {
        return Err(Refused);
    }
    let (mem0, s0) = filter_input(e0, voice0, first);
    let (mem1, s1) = filter_input(e1, voice1, first);
    celt_iir_pair(e0, e1, voice0.lpc, voice1.lpc, &mem0, &mem1)?;
    energy_guard(e0, s0);
    energy_guard(e1, s1);
    Ok(())
}
