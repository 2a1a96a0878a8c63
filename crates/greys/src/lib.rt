// Grey values: the weighted sum of a record's samples, its quotient by the cube's side as an f64 that loses nothing, the same of a
// difference of two sums, and the answer that carries a value or a refusal.
#![tactic(auto)]

ghost use Rattle.std.specs.Prelude.{◌≡◌, suc, ◌*◌, ◌^◌, ◌≤◌, ◌<◌, length, take};
ghost use Rattle.std.proofs.Math.IntN.{sub_ℕ};
ghost use Rattle.dimension.specs.Sizes.{axes_of, cube_side};
ghost use Rattle.greys.specs.Fractions.{Fraction, Quotient, Power};
ghost use Rattle.greys.specs.Samples.{sample_at, grey_sum, Weighable};
ghost use Rattle.greys.specs.Values.{flat_of};

use bisection::{DONE, Refused};
use dimension::Dim;

// The answer of a value query, for a C program: the grey value, or a refusal and its offset.
#[repr(C)]
#[derive(Clone, Copy)]
pub struct ValueAnswer {
    pub refusal: u8,
    pub offset: usize,
    pub value: f64,
}

// A refusal's value is +0.0.
impl From<Result<f64, Refused>> for ValueAnswer {
    ghost from_gives = { λ value answer. answer ≡ flat_of value };

    fn from(value: Result<f64, Refused>) -> ValueAnswer {
        match value {
            Ok(value) => ValueAnswer {
                refusal: DONE,
                offset: 0,
                value,
            },
            Err(refused) => ValueAnswer {
                refusal: refused.refusal.into(),
                offset: refused.offset,
                value: 0.0,
            },
        }
    }
}

// A sum divided by a power of two: nothing is lost.
pub fn fraction(sum: u64, side: u64) -> f64
    requires { (sum < 2 ^ 53) × Power side }
    ensures { Fraction result sum side }
{
    let n = sum as f64;
    let s = side as f64;
    n / s
}

// A difference divided by a power of two: nothing is lost, and a difference of 0 gives +0.0.
pub fn quotient(up: u64, down: u64, side: u64) -> f64
    requires { (up < 2 ^ 53) × (down < 2 ^ 53) × Power side }
    ensures { Quotient result (sub_ℕ up down) side }
{
    let n = up as i64 - down as i64;
    let s = side as f64;
    n as f64 / s
}

// Sample i of a width in bytes, read from its high byte down.
pub fn sample(samples: &[u8], width: usize, i: usize) -> u64
    requires { (width ≤ 3) × (width * suc i ≤ length samples.now) }
    ensures { (result ≡ sample_at width samples.now i) × (result < 2 ^ 24) }
{
    let first = width * i;
    let mut n = 0;
    for byte in samples[first..first + width].iter().rev() {
        n = 256 * n + u64::from(*byte);
    }
    n
}

// The sum of the weights times the samples, one for each vertex.
pub fn grey_sum(samples: &[u8], width: u8, weights: [u64; 5], dim: Dim) -> u64
    requires { Weighable width (axes_of dim) weights samples.now }
    ensures { (result ≡ grey_sum width (take (suc (axes_of dim)) weights) samples.now) × (result < 2 ^ 53) }
{
    let bytes = usize::from(width);
    let mut sum = 0;
    for (j, weight) in weights[..=dim.axes()].iter().enumerate() {
        sum += *weight * sample(samples, bytes, j);
    }
    sum
}

// The grey value: the weighted sum divided by the cube's side.
pub fn grey(samples: &[u8], width: u8, weights: [u64; 5], dim: Dim) -> f64
    requires { Weighable width (axes_of dim) weights samples.now }
    ensures { Fraction result (grey_sum width (take (suc (axes_of dim)) weights) samples.now) cube_side }
{
    fraction(
        grey_sum(samples, width, weights, dim),
        u64::from(Dim::CUBE_SIDE),
    )
}
