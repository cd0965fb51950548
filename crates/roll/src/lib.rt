// A frame rolled into a channel's newest samples.

#![tactic(auto)]

ghost use Rattle.std.specs.Prelude.{◌≡◌, leb, length};
ghost use Rattle.reply.specs.Reply.{replied, reply_if};
ghost use Rattle.roll.specs.Roll.{rolled};

use reply::Refused;

// A frame in the place of as many samples. By place: the library's `copy_from_slice` calls `memmove` where two buffers come from a
// caller, which the archive for C would then want from outside.
fn take_frame(place: &mut [f32], frame: &[f32])
    requires { length place.old ≡ length frame.now }
    ensures { place.new ≡ frame.now }
{
    for (i, v) in place.iter_mut().enumerate() {
        *v = frame[i];
    }
}

// Moves the newest samples back by a frame, which comes in behind them. A frame longer than they are is refused.
#[tactic(auto, using(std::proofs::lemmas::Bool::Decides::nat_tests), unfolding(reply::specs::Reply::reply_if))]
pub fn roll(newest: &mut [f32], frame: &[f32]) -> Result<(), Refused>
    ensures { replied result newest.new
        ≡ reply_if (leb (length frame.now) (length newest.old)) (rolled frame.now newest.old) newest.old }
{
    let n = frame.len();
    if newest.len() < n {
        return Err(Refused);
    }
    let kept = newest.len() - n;
    newest.copy_within(n.., 0);
    take_frame(&mut newest[kept..], frame);
    Ok(())
}
