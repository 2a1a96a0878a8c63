// What every crate may use: a byte as a size, one of two numbers, a copy of bytes.
#![tactic(auto)]

ghost use Rattle.std.specs.Prelude.{◌≡◌, cond, ◌+◌, ◌≤◌, length, drop};
ghost use Rattle.std.proofs.Math.Seq.{paste};

pub fn size(x: u8) -> usize
    ensures { result ≡ x }
{
    x as usize
}

// One of two values.
pub fn pick<T: Copy>(b: bool, x: T, y: T) -> T
    ensures { result ≡ cond b x y }
{
    if b { x } else { y }
}

// Copies n bytes from `from` in src to `to` in dst.
pub fn copy(src: &[u8], from: usize, n: usize, dst: &mut [u8], to: usize)
    requires { (from + n ≤ length src.now) × (to + n ≤ length dst.old) }
    ensures { dst.new ≡ paste dst.old to (drop from src.now) n }
{
    dst[to..to + n].copy_from_slice(&src[from..from + n]);
}
