// An f32 in the wider format.
ghost use Rattle.std.specs.Prelude.{◌≡◌};

// x itself: every f32 is an f64. One library call, under document 01's name: what it promised stays, and its callers' proofs cite it.
pub fn f32_to_f64(x: f32) -> f64
    ensures { result ≡ x }
{
    f64::from(x)
}
