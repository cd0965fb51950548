// The linear predictor.

#![tactic(auto)]

ghost use Rattle.std.specs.Prelude.{◌≡◌, ◌+◌, eqb, length};
ghost use Rattle.reply.specs.Reply.{replied, reply_if};
ghost use Rattle.plc_lpc.specs.Lpc.{celt_lpc};

use reply::Refused;

// The part of the first correlation below which the error stops the predictor.
const SMALL: f32 = 0.001;

// Levinson-Durbin: leaves once the error is below 0.001 of the first correlation.
// By place: document 01 names the form, nested and left from inside; a turn takes its places from either side.
fn solve(lpc: &mut [f32], ac: &[f32])
    requires { length ac.now ≡ length lpc.old + 1 }
    ensures { lpc.new ≡ celt_lpc ac.now (length lpc.old) }
{
    let p = lpc.len();
    let mut error = ac[0];
    lpc.fill(0.0);
    if ac[0] == 0.0 {
        return;
    }
    for i in 0..p {
        let mut rr = 0.0f32;
        // By place: a loop over a zip lends lpc to it, and an invariant there does not see what is lent.
        for j in 0..i {
            rr += lpc[j] * ac[i - j];
        }
        rr += ac[i + 1];
        let r = -rr / error;
        lpc[i] = r;
        for j in 0..i.div_ceil(2) {
            let tmp1 = lpc[j];
            let tmp2 = lpc[i - 1 - j];
            lpc[j] = tmp1 + r * tmp2;
            lpc[i - 1 - j] = tmp2 + r * tmp1;
        }
        error -= r * r * error;
        if error < SMALL * ac[0] {
            break;
        }
    }
}

// The predictor of order lpc.len() from one correlation more; any other number is refused, and lpc stays.
pub fn celt_lpc(lpc: &mut [f32], ac: &[f32]) -> Result<(), Refused>
    ensures { replied result lpc.new
        ≡ reply_if (eqb (length ac.now) (length lpc.old + 1))
        (celt_lpc ac.now (length lpc.old)) lpc.old }
{
    if ac.len() != lpc.len() + 1 {
        return Err(Refused);
    }
    solve(lpc, ac);
    Ok(())
}
