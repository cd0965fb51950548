// Loops over sample buffers that several steps share.

#![tactic(auto)]

ghost use Rattle.std.specs.Prelude.{◌≡◌, map, length, replicate};
ghost use Rattle.buffers.specs.Buffers.{times, energy};

// Every sample becomes v. No step calls it since the library's `fill` serves: what was promised stays, and stays proved.
pub fn fill(x: &mut [f32], v: f32)
    ensures { x.new ≡ replicate (length x.old) v }
{
    x.fill(v);
}

// Each sample times g.
pub fn scale(x: &mut [f32], g: f32)
    ensures { x.new ≡ map (times g) x.old }
{
    for v in x.iter_mut() {
        *v *= g;
    }
}

// The squares of all samples, added to `from` in order.
pub fn energy(x: &[f32], from: f32) -> f32
    ensures { result ≡ energy from x.now }
{
    let mut s = from;
    for v in x {
        s += v * v;
    }
    s
}
