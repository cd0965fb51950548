// The steps of de-emphasis. Nothing here knows whether the frame was lost.

#![tactic(auto)]

ghost use Rattle.std.specs.Prelude.{◌≡◌};
ghost use Rattle.deemphasis.specs.Deemphasis.{next_memory, pcm_value, has_room};

use custom_mode::standard::preemph;

// 1 / 32,768.
const PER_SCALE: f32 = 0.000030517578125;

// The memory after the sample v. The product with v stays, though its coefficient is 0: it turns an infinite v into NaN.
#[tactic(auto, unfolding(crate::specs::Deemphasis::next_memory))]
pub fn next_memory(mem: f32, v: f32) -> f32
    ensures { result ≡ next_memory mem v }
{
    let c = preemph();
    let tmp = v + mem;
    c[0] * tmp - c[1] * v
}

// What the sample v leaves as. The sum with the memory stands here too: a sample that is not kept has a memory alone.
#[tactic(auto, unfolding(crate::specs::Deemphasis::pcm_value))]
pub fn pcm_value(mem: f32, v: f32) -> f32
    ensures { result ≡ pcm_value mem v }
{
    let c = preemph();
    let tmp = v + mem;
    c[3] * tmp * PER_SCALE
}

// Whether every downsample-th of n samples can be kept in `room` places.
#[tactic(auto, unfolding(crate::specs::Deemphasis::has_room))]
pub fn has_room(downsample: usize, n: usize, room: usize) -> bool
    ensures { result ≡ has_room downsample n room }
{
    1 <= downsample && n % downsample == 0 && n / downsample <= room
}
