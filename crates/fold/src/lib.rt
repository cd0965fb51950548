// What follows a frame folded into the overlap.

#![tactic(auto)]

ghost use Rattle.std.specs.Prelude.{◌≡◌, ◌<◌, length};
ghost use Rattle.reply.specs.Reply.{replied, reply_if};
ghost use Rattle.history.specs.History.{overlap};
ghost use Rattle.celt_window.specs.Window.{window};
ghost use Rattle.fold.specs.Fold.{fold_at, folded, fold_takes};

use history::OVERLAP;
use reply::Refused;

// The overlap's last place.
const LAST: usize = OVERLAP - 1;

// Place k of the folded overlap: it shares its sum with the place as far from the other end.
fn fold_at(w: &[f32; OVERLAP], x: &[f32; OVERLAP], k: usize) -> f32
    requires { k < overlap }
    ensures { result ≡ fold_at w.now x.now k }
{
    let i = k.min(LAST - k);
    w[LAST - k] * (w[i] * x[LAST - i] + w[LAST - i] * x[i])
}

// x, the concealed tail, folded into the overlap by the window. Refused: either not of 120 samples.
#[tactic(auto, using(std::proofs::lemmas::Bool::Decides::nat_tests), unfolding(reply::specs::Reply::reply_if, crate::specs::Fold::fold_takes))]
pub fn fold_tail(over: &mut [f32], x: &[f32]) -> Result<(), Refused>
    ensures { replied result over.new
        ≡ reply_if (fold_takes (length over.old) (length x.now)) (folded window x.now) over.old }
{
    if over.len() != OVERLAP {
        return Err(Refused);
    }
    let x = <&[f32; OVERLAP]>::try_from(x)?;
    let w = celt_window::window();
    // By place: each reads x and the window from both ends.
    for (k, place) in over.iter_mut().enumerate() {
        *place = fold_at(&w, x, k);
    }
    Ok(())
}
