// Samples copied from one buffer to another.
// No step calls it since the library's `copy_from_slice` serves: what was promised stays, and stays proved.

#![tactic(auto)]

ghost use Rattle.std.specs.Prelude.{◌≡◌};
ghost use Rattle.copying.specs.Copy.{copied};

// The first samples of dst become src's, as many as both have.
pub fn copy(dst: &mut [f32], src: &[f32])
    ensures { dst.new ≡ copied src.now dst.old }
{
    let n = src.len().min(dst.len());
    dst[..n].copy_from_slice(&src[..n]);
}
