// De-emphasis of two channels' samples.

#![tactic(auto)]

ghost use Rattle.std.specs.Prelude.{◌≡◌, [], ◌∷◌, ◌*◌, ◌/◌, length, get_or};
ghost use Rattle.std.specs.Float.{nan};
ghost use Rattle.loops.specs.Front.{front, tab};
ghost use Rattle.reply.specs.Reply.{replied, value_or};
ghost use Rattle.deemphasis.specs.Deemphasis.{memory_to, Room, value_at, sound, deemphasis_stereo};

use deemphasis::{has_room, next_memory, pcm_value};
use reply::Refused;

// Both channels in one loop, so that their two chains of additions run side by side. A function of its own beside that of one
// channel: one for both would take `[&[f32]; N]`, and an array of slices by a const parameter is not covered by the check.
fn filter_stereo(
    v: &[f32],
    w: &[f32],
    memories: [f32; 2],
    downsample: usize,
    pcm: &mut [f32],
) -> [f32; 2]
    requires { (length w.now ≡ length v.now) × Room downsample (length v.now) (length pcm.old / 2) }
    ensures { (result ≡ memory_to v.now (get_or memories 0 nan) (length v.now) ∷ memory_to w.now (get_or memories 1 nan) (length v.now) ∷ [])
        × (pcm.new ≡ front (tab (value_at downsample (v.now ∷ w.now ∷ []) memories) (2 * (length v.now / downsample)))
        pcm.old (2 * (length v.now / downsample))) }
{
    let [mut first, mut second] = memories;
    // The PCM goes by number: of a zip with `iter_mut` a proof has the items alone, not the list that they leave.
    for (q, (part, other)) in v
        .chunks_exact(downsample)
        .zip(w.chunks_exact(downsample))
        .enumerate()
    {
        pcm[2 * q] = pcm_value(first, part[0]);
        pcm[2 * q + 1] = pcm_value(second, other[0]);
        for (x, y) in part.iter().zip(other) {
            first = next_memory(first, *x);
            second = next_memory(second, *y);
        }
    }
    [first, second]
}

// De-emphasis of two channels' samples, interleaved. Parameters apart, as in `deemphasis_mono`.
pub fn deemphasis_stereo(
    v: &[f32],
    w: &[f32],
    memories: [f32; 2],
    downsample: usize,
    pcm: &mut [f32],
) -> Result<[f32; 2], Refused>
    ensures { replied result (sound pcm.new (value_or memories result)) ≡ deemphasis_stereo downsample v.now w.now memories pcm.old }
{
    if v.len() != w.len() || !has_room(downsample, v.len(), pcm.len() / 2) {
        return Err(Refused);
    }
    Ok(filter_stereo(v, w, memories, downsample, pcm))
}
