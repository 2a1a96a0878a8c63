// The next cell, kept as a code. After a leaf the next one is known before it is read: its bytes are those of the next cell, or
// of the first one inside it at some depth. It belongs to the code layer: what stands above it sees neither a path nor a byte of
// a code. A first cell inside has the same entries, and the front of the same orthants: so these are kept for all depths.
#![tactic(auto)]

ghost use Rattle.std.specs.Prelude.{◌≡◌, ◌++◌, ◌+◌, ◌-◌, ◌%◌, ◌≤◌, ◌<◌, length, take, drop, replicate};
ghost use Rattle.dimension.specs.Sizes.{axes_of, halvings, box_depth};
ghost use Rattle.entries.specs.Words.{word_of};
ghost use Rattle.next.specs.Digits.{digits, SameDigits, four_digits};
ghost use Rattle.next.specs.Nexts.{entries_of, MatchIs, ClimbReady, UpIs, AfterReady, AfterIs, FirstIs};

use dimension::Dim;
use entries::{check, words};
use fours::Four;
use positions::roots;

// The number whose digits, base 16, are all 1: as many as there are halvings.
const ONES: u64 = 0x1111_1111_1111;

// The cell of a root and a path: its entries; the orthants of the first cell of greatest depth inside it, as digits base 16, the
// first one lowest; its depth; and its path as a number, the first step highest. The entries have no struct of their own here: one
// that is carried from leaf to leaf would be packed into a word and unpacked each time.
#[derive(Clone, Copy)]
pub struct Next {
    pub first: u8,
    pub second: u8,
    pub third: u8,
    pub fourth: u8,
    pub boxes: u64,
    pub depth: usize,
    pub path: u64,
}

// The code of the next cell, or of the first one inside it: its length, its depth, and how many boxes it has.
#[derive(Clone, Copy)]
pub struct Match {
    pub length: usize,
    pub depth: usize,
    pub boxes: usize,
}

impl Next {
    fn entries(self) -> Four
        ensures { result ≡ entries_of self }
    {
        Four {
            first: self.first,
            second: self.second,
            third: self.third,
            fourth: self.fourth,
        }
    }
}

// The lowest digit of a number.
fn digit(w: u64) -> u32
    ensures { (result ≡ w % 16) × (result < 16) }
{
    (w % 16) as u32
}

// The n bytes from a place on are the first n digits of a number: one by one, where there are few.
fn same_few(bytes: &[u8], at: usize, n: usize, boxes: u64) -> bool
    requires { at + n ≤ length bytes.now }
    ensures { SameDigits n (take n (drop at bytes.now)) boxes result }
{
    let mut left = boxes;
    for i in 0..n {
        if u32::from(bytes[at + i]) != digit(left) {
            return false;
        }
        left /= 16;
    }
    true
}

// Four digits of a number, from a place on, as the bytes of a word.
#[tactic(auto, using(crate::specs::Digits::digits_sum))]
fn four_digits(boxes: u64, from: usize) -> u32
    requires { from < 16 }
    ensures { result ≡ word_of (four_digits boxes from) }
{
    let left = boxes >> (4 * from);
    digit(left) + 256 * digit(left / 16) + 65536 * digit(left / 256) + 16777216 * digit(left / 4096)
}

// The n bytes from a place on are the first n digits of a number. Four at a time, and the last four where fewer are left: a loop whose
// end is not foreseen costs more than the comparisons that it saves.
fn same_boxes(bytes: &[u8], at: usize, n: usize, boxes: u64) -> bool
    requires { (at + n ≤ length bytes.now) × (n ≤ halvings) }
    ensures { SameDigits n (take n (drop at bytes.now)) boxes result }
{
    if n < 4 {
        return same_few(bytes, at, n, boxes);
    }
    for i in (0..Dim::HALVINGS).step_by(4) {
        let from = i.min(n - 4);
        if words::word_at(bytes, at + from) != four_digits(boxes, from) {
            return false;
        }
    }
    true
}

// Whether the bytes begin with the code of the next cell, or of the first one inside it at the depth that they name.
pub fn matches(next: Next, dim: Dim, bytes: &[u8]) -> Option<Match>
    requires { 2 ≤ length bytes.now }
    ensures { MatchIs (axes_of dim) next bytes.now result }
{
    let axes = dim.axes();
    let depth = usize::from(bytes[1]);
    if usize::from(bytes[0]) != axes {
        return None;
    }
    if depth < next.depth {
        return None;
    }
    if dim.greatest_depth() < depth {
        return None;
    }
    let boxes = dim.box_depth(depth);
    let length = 2 + axes + boxes;
    if bytes.len() < length {
        return None;
    }
    if !fours::same(fours::entries_of(bytes, 2, axes), next.entries()) {
        return None;
    }
    if !same_boxes(bytes, 2 + axes, boxes, next.boxes) {
        return None;
    }
    Some(Match {
        length,
        depth,
        boxes,
    })
}

// A cell on the way up: its entries, its path as a number and its depth; its split place, and how many boxes it has.
#[derive(Clone, Copy)]
struct Up {
    entries: Four,
    path: u64,
    depth: usize,
    place: usize,
    boxes: usize,
}

// Drops the 1s at a path's end: up to the first cell whose last step is no 1. Its boxes are counted step by step. The entries are four
// locals: one `Four` carried along was slower (13.1 ns against 12.0 for the way up from a leaf).
fn climb(from: Four, path: u64, depth: usize, count: usize, dim: Dim) -> Up
    requires { ClimbReady (axes_of dim) from path depth × (count ≡ box_depth (axes_of dim) depth) }
    ensures { UpIs (axes_of dim) from path depth result }
{
    let axes = dim.axes();
    let mut first = from.first;
    let mut second = from.second;
    let mut third = from.third;
    let mut fourth = from.fourth;
    let mut left = path;
    let mut t = depth;
    let mut boxes = count;
    let mut k = axes - (depth - axes * count);
    while left % 2 == 1 {
        boxes = steps::boxes_above(boxes, k, axes);
        k = steps::place_above(k, axes);
        let here = Four {
            first,
            second,
            third,
            fourth,
        };
        let back = fours::turned_back(here, k - 1);
        first = back.first;
        second = back.second;
        third = back.third;
        fourth = back.fourth;
        left /= 2;
        t -= 1;
    }
    let entries = Four {
        first,
        second,
        third,
        fourth,
    };
    Up {
        entries,
        path: left,
        depth: t,
        place: k,
        boxes,
    }
}

// The digits from a place on, all replaced by one.
#[tactic(auto, using(dimension::specs::Laws::halvings_few, crate::specs::Digits::fill_is))]
fn filled(boxes: u64, from: usize, own: u8) -> u64
    requires { (from ≤ halvings) × (own < 16) }
    ensures { digits halvings result ≡ take from (digits halvings boxes) ++ replicate (halvings - from) own }
{
    let p = positions::power(4 * from);
    boxes % p + ONES * u64::from(own) / p * p
}

// The cell after the leaf of a depth, with so many boxes, that is the next cell or the first one inside it: the 1s at its path's end are dropped, and
// the last 0 becomes 1; there is none where the root is done. That costs as many steps up as were gone down.
pub fn after(next: Next, dim: Dim, depth: usize, count: usize) -> Option<Next>
    requires { AfterReady (axes_of dim) next depth × (count ≡ box_depth (axes_of dim) depth) }
    ensures { AfterIs (axes_of dim) next depth result }
{
    let path = next.path * positions::power(depth - next.depth);
    let up = climb(next.entries(), path, depth, count, dim);
    if up.depth == 0 {
        return None;
    }
    let axes = dim.axes();
    let place = steps::place_above(up.place, axes);
    let turned = fours::turned_on(up.entries, place - 1);
    let above = steps::boxes_above(up.boxes, up.place, axes);
    let boxes = filled(next.boxes, above, fours::own_of(turned));
    Some(Next {
        first: turned.first,
        second: turned.second,
        third: turned.third,
        fourth: turned.fourth,
        boxes,
        depth: up.depth,
        path: up.path + 1,
    })
}

// The first cell of a root, by the root's number: the root itself. Past the last root it gives the first one again.
#[tactic(auto, using(crate::specs::Starts::root_under, crate::specs::Starts::first_is))]
pub fn first(dim: Dim, n: usize) -> Next
    ensures { FirstIs (axes_of dim) n result }
{
    let root = check::place_in(n, dim.roots());
    Next {
        first: roots::entry(dim, root, 0),
        second: roots::entry(dim, root, 1),
        third: roots::entry(dim, root, 2),
        fourth: roots::entry(dim, root, 3),
        boxes: 0,
        depth: 0,
        path: 0,
    }
}
