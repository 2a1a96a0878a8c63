// The front of a code copied to a lent buffer.
ghost use Rattle.std.specs.Prelude.{◌≡◌, ◌+◌, ◌≤◌, length, take, drop, ◌++◌};
ghost use Rattle.dimension.specs.Sizes.{longest_of_all};
ghost use Rattle.steps.specs.Copying.{CopiesFour};

use dimension::Dim;
use entries::{check, words};

// Where the last four bytes of the longest code begin.
const LAST_FOUR: usize = Dim::LONGEST_CODE - 4;

// Copies the four bytes from a place on. Through a word: by `copy_from_slice` of the one slice to the other the child and the parent of
// a code took 1.1 times as long by measurement.
fn copy_four(src: &[u8], at: usize, dst: &mut [u8])
    requires { (at + 4 ≤ length src.now) × (at + 4 ≤ length dst.old) }
    ensures { CopiesFour at src.now dst.old dst.new }
{
    words::put(words::word_at(src, at), dst, at);
}

// Copies the first n bytes of a code, four at a time: every code has four. Where there are fewer than the longest code has, it
// copies the first four again; the last four may have been copied in part. A copy of a slice of n bytes would call memcpy, which the
// C library may not need (.ci/symbols).
pub fn copy_front(code: &[u8], n: usize, out: &mut [u8])
    requires { (4 ≤ n) × (n ≤ longest_of_all) × (n ≤ length code.now) × (n ≤ length out.old) }
    ensures { out.new ≡ take n code.now ++ drop n out.old }
{
    let last = n - 4;
    for i in (0..LAST_FOUR).step_by(4) {
        copy_four(code, check::place_in(i, last), out);
    }
    copy_four(code, last, out);
}
