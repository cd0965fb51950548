// De-emphasis of one channel's samples.

#![tactic(auto)]

ghost use Rattle.std.specs.Prelude.{◌≡◌, [], ◌∷◌, ◌/◌, length};
ghost use Rattle.loops.specs.Front.{front, tab};
ghost use Rattle.reply.specs.Reply.{replied, value_or};
ghost use Rattle.deemphasis.specs.Deemphasis.{memory_to, Room, value_at, sound, deemphasis_mono};

use deemphasis::{has_room, next_memory, pcm_value};
use reply::Refused;

// One channel's PCM, and its memory after all samples. Why one function does not serve both: `deemphasis_stereo` says it.
fn filter_mono(v: &[f32], memory: f32, downsample: usize, pcm: &mut [f32]) -> f32
    requires { Room downsample (length v.now) (length pcm.old) }
    ensures { (result ≡ memory_to v.now memory (length v.now))
        × (pcm.new ≡ front (tab (value_at downsample (v.now ∷ []) (memory ∷ [])) (length v.now / downsample))
        pcm.old (length v.now / downsample)) }
{
    let mut mem = memory;
    // The PCM goes by number: of a zip with `iter_mut` a proof has the items alone, not the list that they leave.
    for (q, part) in v.chunks_exact(downsample).enumerate() {
        pcm[q] = pcm_value(mem, part[0]);
        for x in part {
            mem = next_memory(mem, *x);
        }
    }
    mem
}

// De-emphasis of one channel's samples; the other memory is carried. Samples, memories, factor and PCM apart, as in
// `deemphasis_stereo` and `frame_sound`: what is read, carried and written belongs to different owners.
pub fn deemphasis_mono(
    v: &[f32],
    memories: [f32; 2],
    downsample: usize,
    pcm: &mut [f32],
) -> Result<[f32; 2], Refused>
    ensures { replied result (sound pcm.new (value_or memories result)) ≡ deemphasis_mono downsample v.now memories pcm.old }
{
    if !has_room(downsample, v.len(), pcm.len()) {
        return Err(Refused);
    }
    let [memory, other] = memories;
    Ok([filter_mono(v, memory, downsample, pcm), other])
}
