// The 120 values of the rising half of the window, W(n) = sin(pi/2 sin(pi/2 (n + 1/2) / 120)^2), printed from the Rust.

#![tactic(auto)]

ghost use Rattle.std.specs.Prelude.{◌≡◌};
ghost use Rattle.celt_window.specs.Window.{window, low_overlap_window};

use custom_mode::standard::OVERLAP;

const WINDOW: [f32; OVERLAP] = [
    0.000067286965,
    0.00060551346,
    0.001681597,
    0.0032947962,
    0.0054439944,
    0.008127692,
    0.011344002,
    0.015090632,
    0.019364886,
    0.024163635,
    0.029483315,
    0.035319906,
    0.04166891,
    0.04852535,
    0.055883717,
    0.063737996,
    0.07208162,
    0.08090743,
    0.0902077,
    0.09997411,
    0.110197686,
    0.12086883,
    0.13197729,
    0.14351214,
    0.15546177,
    0.16781388,
    0.1805555,
    0.1936729,
    0.20715171,
    0.22097681,
    0.23513243,
    0.24960208,
    0.2643686,
    0.27941418,
    0.2947204,
    0.3102682,
    0.32603788,
    0.3420093,
    0.35816178,
    0.37447408,
    0.39092463,
    0.40749142,
    0.42415214,
    0.44088423,
    0.45766485,
    0.47447103,
    0.49127978,
    0.50806797,
    0.52481264,
    0.5414908,
    0.5580797,
    0.574557,
    0.5909005,
    0.6070884,
    0.6230995,
    0.63891304,
    0.65450895,
    0.66986775,
    0.6849708,
    0.6998001,
    0.7143387,
    0.7285705,
    0.74248046,
    0.7560542,
    0.76927894,
    0.7821426,
    0.7946343,
    0.80674446,
    0.8184646,
    0.8297873,
    0.8407067,
    0.8512178,
    0.861317,
    0.87100184,
    0.88027114,
    0.8891248,
    0.897564,
    0.90559095,
    0.913209,
    0.9204227,
    0.9272374,
    0.93365955,
    0.93969655,
    0.9453567,
    0.9506491,
    0.9555835,
    0.9601707,
    0.9644217,
    0.9683485,
    0.97196335,
    0.97527903,
    0.97830886,
    0.98106617,
    0.9835648,
    0.9858187,
    0.9878419,
    0.9896486,
    0.9912527,
    0.9926685,
    0.9939097,
    0.99499005,
    0.995923,
    0.9967216,
    0.99739873,
    0.99796665,
    0.9984373,
    0.998822,
    0.9991315,
    0.99937606,
    0.99956524,
    0.999708,
    0.9998125,
    0.99988616,
    0.9999356,
    0.999967,
    0.99998516,
    0.9999946,
    0.99999857,
    0.9999998,
    1.0,
];

// The table, by value: whoever reads it often takes it once and lends it.
#[tactic(auto, unfolding(crate::specs::Window::window, crate::specs::Window::window_bits))]
pub fn window() -> [f32; OVERLAP]
    ensures { result ≡ window }
{
    WINDOW
}

// The window of one long block of n + 120 samples, w being the rising half: it rises, stays at 1 and falls, and
// is 0 past its end: total, as no public function asks anything.
#[tactic(auto, using(std::proofs::lemmas::Bool::Decides::nat_tests), unfolding(crate::specs::Window::low_overlap_window))]
pub fn low_overlap_window(w: &[f32; OVERLAP], n: usize, j: usize) -> f32
    ensures { result ≡ low_overlap_window w.now n j }
{
    if j < OVERLAP {
        w[j]
    } else if j < n {
        1.0
    } else if j - n < OVERLAP {
        w[OVERLAP - 1 - (j - n)]
    } else {
        0.0
    }
}
