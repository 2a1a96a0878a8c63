// Cells on the line: where the cell of a code that passes stands. It belongs to the code layer: what stands above it
// knows a cell by its position alone.
#![tactic(auto)]

pub mod roots; // roots.rt: the roots in dictionary order

ghost use Rattle.std.specs.Prelude.{◌≡◌, ◌+◌, ◌-◌, ◌*◌, ◌^◌, ◌≤◌, ◌<◌, length};
ghost use Rattle.dimension.specs.Sizes.{axes_of, greatest_depth};
ghost use Rattle.entries.specs.Words.{bytes_of};
ghost use Rattle.positions.specs.Positions.{PositionIs};
ghost use Rattle.positions.specs.RootNumbers.{smaller_in, number_in};
ghost use Rattle.positions.specs.Walks.{WalkReady, Reached};

use dimension::Dim;
use entries::code::Code;
use fours::words;

// The number of a cell's root in dictionary order, and its part of the root's stretch.
#[derive(Clone, Copy)]
pub struct Position {
    pub root: usize,
    pub start: u64,
    pub size: u64,
}

// Two to a power.
pub fn power(n: usize) -> u64
    requires { n ≤ 60 }
    ensures { result ≡ 2 ^ n }
{
    1 << n
}

// How many of the d entries after place i are smaller than entry i. `filter` and `count` took twice as long (22.0 ns for 10.4 for a
// root of four axes).
fn smaller(root: &[u8], i: usize, d: usize) -> usize
    requires { (i < d) × (d ≤ length root.now) }
    ensures { result ≡ smaller_in root.now i d }
{
    let mut n = 0;
    for x in &root[i + 1..d] {
        if *x < root[i] {
            n += 1;
        }
    }
    n
}

// The number of a root in dictionary order: at each place, how many of the axes left are passed over.
#[tactic(auto, using(crate::specs::RootNumbers::numbering))]
fn number(root: &[u8], d: usize) -> usize
    requires { (d ≤ 4) × (d ≤ length root.now) }
    ensures { result ≡ number_in d root.now d }
{
    let mut n = 0;
    for i in 0..d {
        n = n * (d - i) + smaller(root, i, d);
    }
    n
}

// Where the way up from a code ends: its root's entries as a word, and where the cell starts on the root's stretch.
#[derive(Clone, Copy)]
struct Origin {
    root: u32,
    start: u64,
}

// Takes the steps of the entries back, the deepest first, up to the root.
fn walk(code: &[u8], dim: Dim, depth: usize, from: u32, size: u64) -> Origin
    requires { WalkReady (axes_of dim) depth code.now (bytes_of from) size }
    ensures { Reached (axes_of dim) depth code.now (bytes_of from) (bytes_of result.root) result.start }
{
    let axes = dim.axes();
    let mut root = from;
    let mut k = dim.split_place(depth);
    let mut boxes = dim.box_depth(depth);
    let mut start = 0;
    let mut half = size;
    for _t in (0..depth).rev() {
        boxes = steps::boxes_above(boxes, k, axes);
        k = steps::place_above(k, axes);
        let own = steps::own_of(code, axes, boxes);
        let back = words::unstep(root, k - 1, own);
        root = back.before;
        start += u64::from(back.step) * half;
        half *= 2;
    }
    Origin { root, start }
}

// Where the cell of a code stands.
pub fn position_of(code: &Code) -> Position
    ensures { PositionIs code.now result }
{
    let bytes = code.bytes();
    let dim = code.dim();
    let axes = dim.axes();
    let depth = code.depth();
    let size = power(dim.greatest_depth() - depth);
    let origin = walk(bytes, dim, depth, words::word_in(bytes, axes), size);
    Position {
        root: number(&origin.root.to_le_bytes(), axes),
        start: origin.start,
        size,
    }
}
