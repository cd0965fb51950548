// The energy guard: a synthesis that explodes is zeroed, one that merely grew is scaled back.

#![tactic(auto)]

ghost use Rattle.std.specs.Prelude.{◌≡◌};
ghost use Rattle.buffers.specs.Buffers.{zero32, energy};
ghost use Rattle.energy_guard.specs.Guard.{muted, guarded};

// Whether the samples were zeroed; no step of a loss reads it.
// A struct: the contract gives the verdict by its name, and a bare bool would not say which it is.
#[derive(Clone, Copy)]
pub struct Guarded {
    pub muted: bool,
}

// s1 is the energy of the history that e stands for. A NaN energy is zeroed too.
#[tactic(auto, unfolding(crate::specs::Guard::guarded, crate::specs::Guard::guarded_at, crate::specs::Guard::back_scale, crate::specs::Guard::muted, crate::specs::Guard::exceeds))]
pub fn energy_guard(e: &mut [f32], s1: f32) -> Guarded
    ensures { (result.muted ≡ muted s1 (energy zero32 e.old)) × (e.new ≡ guarded s1 e.old) }
{
    let s2 = buffers::energy(e, 0.0);
    // Not `<=`: a NaN is not above either.
    if !(s1 > 0.2 * s2) {
        e.fill(0.0);
        return Guarded { muted: true };
    }
    if s1 < s2 {
        let ratio = float_root::sqrt_f32((s1 + 1.0) / (s2 + 1.0));
        buffers::scale(e, ratio);
    }
    Guarded { muted: false }
}
