// A filter's memory ahead of its samples in one buffer, so that both are read by one index and nothing is shifted.

#![tactic(auto)]

ghost use Rattle.std.specs.Prelude.{◌≡◌, ◌-◌, ◌<◌, length};
ghost use Rattle.reply.specs.Reply.{replied, reply_if};
ghost use Rattle.plc_pad.specs.Pad.{order, remembered, pad_takes, taps_taken};

use reply::Refused;

// The order of the filters: at most so many values are remembered.
pub const ORDER: usize = 24;

// Both channels' coefficients.
pub const COEFFICIENTS: usize = 2 * ORDER;

// The most recent of them, ahead of the first sample.
pub const NEWEST: usize = ORDER - 1;

// Puts mem, the most recent first, before place 24 of pad. More than 24 values and a shorter pad are refused, and pad stays.
#[tactic(auto, using(std::proofs::lemmas::Bool::Decides::nat_tests), unfolding(reply::specs::Reply::reply_if))]
pub fn remember(pad: &mut [f32], mem: &[f32]) -> Result<(), Refused>
    ensures { replied result pad.new
        ≡ reply_if (pad_takes (length pad.old) (length mem.now)) (remembered mem.now pad.old) pad.old }
{
    if pad.len() < ORDER || ORDER < mem.len() {
        return Err(Refused);
    }
    let front = &mut pad[ORDER - mem.len()..ORDER];
    front.copy_from_slice(mem);
    front.reverse();
    Ok(())
}

// x less each tap times its value of the 24 before, in order; the last of `past` is the most recent.
// Always: it is put into the loops of two filters, and a call for each sample would cost a tenth.
#[inline(always)]
pub fn less_taps(den: &[f32; ORDER], past: &[f32; ORDER], x: f32) -> f32
    ensures { result ≡ taps_taken den.now past.now 0 x order }
{
    let mut y = x;
    for (d, v) in den.iter().zip(past.iter().rev()) {
        y -= *d * *v;
    }
    y
}
