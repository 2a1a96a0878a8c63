// The vertices of a code that passes. A point is one word: its coordinates, 16 bits for each axis, axis 1 lowest. The orthants give the
// low sides of the box as such a word, and each entry adds what a vertex has above the low side on its axis. No branch is on a byte of
// the code: how many orthants there are, and which axis an entry has, can't be foreseen.
#![tactic(auto)]

ghost use Rattle.std.specs.Prelude.{◌≡◌, cond, ◌+◌, ◌-◌, ◌*◌, ◌^◌, ◌≤◌, ◌<◌, leb, pos, ◌+ℤ◌, length, drop};
ghost use Rattle.common.specs.Putting.{Puts};
ghost use Rattle.dimension.specs.Sizes.{box_side, points_length};
ghost use Rattle.bisection.specs.Codes.{axis, minus, dimension_of, depth_of, orthants_of};
ghost use Rattle.bisection.specs.Refusals.{done, code_refusal};
ghost use Rattle.entries.specs.Words.{word_of, four_from};
ghost use Rattle.corners.specs.PointWords.{point_word, in_word, on_axis, coordinate_bytes};
ghost use Rattle.corners.specs.Lows.{spread_of, four_more, lowest_of, lows_in, OrthantsReady};
ghost use Rattle.corners.specs.Steps.{signed_step, MovesTo};
ghost use Rattle.corners.specs.Vertices.{VertexReady, VertexOf, vertex_in};
ghost use Rattle.corners.specs.Drawing.{CellWritten};

use dimension::Dim;
use entries::code::Code;
use entries::{check, words};

// A step by plus or minus so much.
#[tactic(auto, unfolding(crate::specs::Steps::signed_step))]
fn step_of(reach: u64, minus: bool) -> i32
    requires { reach < 65536 }
    ensures { result ≡ signed_step reach minus }
{
    let s = reach as i32;
    if minus { -s } else { s }
}

// A coordinate moved by a signed step.
fn moved(x: u64, step: i32) -> u64
    requires { (x < 65536) × MovesTo x step }
    ensures { pos result ≡ pos x +ℤ step }
{
    let y = (x as i32) + step;
    y as u64
}

// The point with 1 on each axis that the orthant is high on, and 0 on the others. A table and no branch.
#[tactic(auto, unfolding(crate::specs::Lows::spread_of))]
fn spread(orthant: u64) -> u64
    requires { orthant < 16 }
    ensures { result ≡ spread_of orthant }
{
    match orthant {
        0 => 0,
        1 => 0x0000_0000_0000_0001,
        2 => 0x0000_0000_0001_0000,
        3 => 0x0000_0000_0001_0001,
        4 => 0x0000_0001_0000_0000,
        5 => 0x0000_0001_0000_0001,
        6 => 0x0000_0001_0001_0000,
        7 => 0x0000_0001_0001_0001,
        8 => 0x0001_0000_0000_0000,
        9 => 0x0001_0000_0000_0001,
        10 => 0x0001_0000_0001_0000,
        11 => 0x0001_0000_0001_0001,
        12 => 0x0001_0001_0000_0000,
        13 => 0x0001_0001_0000_0001,
        14 => 0x0001_0001_0001_0000,
        _ => 0x0001_0001_0001_0001,
    }
}

// The four bytes of a code from so many before its end on, or its first four where it has no more.
fn four_back(code: &[u8], back: usize) -> u64
    requires { (4 ≤ length code.now) × (4 ≤ back) }
    ensures { result ≡ word_of (four_from code.now (length code.now - back)) }
{
    let n = code.len();
    u64::from(words::word_at(code, n - back.min(n)))
}

// A point twice, and 1 more on each axis that the orthant is high on: one binary digit more of each coordinate.
fn digit_more(point: u64, orthant: u64) -> u64
    requires { (orthant < 16) × (2 * point + spread_of orthant < 2 ^ 64) }
    ensures { result ≡ 2 * point + spread_of orthant }
{
    2 * point + spread(orthant)
}

// Four digits more.
#[tactic(auto, unfolding(crate::specs::Lows::four_more))]
fn four_more(point: u64, orthants: u64) -> u64
    requires { four_more point orthants < 2 ^ 64 }
    ensures { result ≡ four_more point orthants }
{
    let one = digit_more(point, orthants % 16);
    let two = digit_more(one, (orthants >> 8) % 16);
    let three = digit_more(two, (orthants >> 16) % 16);
    digit_more(three, (orthants >> 24) % 16)
}

// How many bytes before a code's end hold all its orthants: four at a time.
const BACK: usize = (Dim::HALVINGS + 3) / 4 * 4;

// 1 on each axis.
const ONES: u64 = 0x0001_0001_0001_0001;

// The mask of the lowest n binary digits of each coordinate.
#[tactic(auto, unfolding(crate::specs::Lows::lowest_of))]
fn lowest(n: usize) -> u64
    requires { n ≤ 15 }
    ensures { result ≡ lowest_of n }
{
    ((1 << n) - 1) * ONES
}

// The low sides of the box, as a point: the orthants are their digits, and `side` is what the last digit counts. As many bytes are read
// as orthants can be, from the code's end back, and what is read before the first orthant is masked out.
fn low_sides(code: &[u8], d: usize, side: u64) -> u64
    requires { OrthantsReady code.now d side }
    ensures { result ≡ lows_in (drop (2 + d) code.now) }
{
    let mut digits = 0;
    for i in (0..BACK).step_by(4) {
        digits = four_more(digits, four_back(code, BACK - i));
    }
    (digits & lowest(code.len() - 2 - d)) * side
}

// What vertex j has above the box's low side on the axis of the entry e at place t. Up to the entry's place that is what the near side
// has, nothing for a plus and the whole side for a minus; after it, where a step from there leads: `far` for a plus, `back` for a minus.
fn rise(side: u64, far: u64, back: u64, e: u8, t: usize, j: usize) -> u64
    ensures { result ≡ cond (minus e) (cond (leb j t) side back) (cond (leb j t) 0 far) }
{
    common::pick(
        entries::is_minus(e),
        common::pick(j <= t, side, back),
        common::pick(j <= t, 0, far),
    )
}

// The point with x on the entry's axis, and 0 on the others.
fn on_axis(x: u64, e: u8) -> u64
    requires { (x < 65536) × (axis e ≤ 4) × (axis e ≡ 0 → x ≡ 0) }
    ensures { result ≡ in_word (on_axis (axis e) x) }
{
    x << (16 * ((usize::from(entries::axis_of(e)) + 3) % 4))
}

// Vertex j of the box with these low sides and this side, the entries and the split place, as a point's word. A signed step goes to the
// other side of the box up to the split place, and to the middle after it.
fn vertex_at(lows: u64, side: u64, entries: u32, split: usize, j: usize) -> u64
    requires { VertexReady lows side entries split j }
    ensures { VertexOf lows side entries split j result }
{
    let reach = common::pick(j <= split, side, side / 2);
    let far = moved(0, step_of(reach, false));
    let back = moved(side, step_of(reach, true));
    let mut point = lows;
    for t in 0..4 {
        let e = words::byte_at(entries, t);
        point += on_axis(rise(side, far, back, e, t, j), e);
    }
    point
}

// The side of the box of a code.
pub fn side_of(code: &Code) -> u64
    ensures { result ≡ box_side (dimension_of code.now) (depth_of code.now) }
{
    u64::from(Dim::CUBE_SIDE) >> (code.bytes().len() - 2 - code.axes())
}

// The low sides of the box of a code, as a point's word.
pub fn lows_of(code: &Code) -> u64
    ensures { result ≡ lows_in (orthants_of code.now) }
{
    low_sides(code.bytes(), code.axes(), side_of(code))
}

// Vertex j of a code, as a point's word, with the low sides of its box.
pub fn vertex(code: &Code, lows: u64, j: usize) -> u64
    requires { (lows ≡ lows_in (orthants_of code.now)) × (j ≤ dimension_of code.now) }
    ensures { result ≡ point_word (vertex_in code.now j) }
{
    let bytes = code.bytes();
    let d = code.axes();
    let entries = fours::words::word_in(bytes, d);
    let split = check::split_of(bytes, d);
    vertex_at(lows, side_of(code), entries, split, j)
}

// Writes the first d coordinates of a point from a place on, two bytes each, the low byte first. Gives the place after them. One by one:
// to copy them all at once is a call of memcpy, which the library does without.
fn put_point(points: &mut [u8], at: usize, d: usize, point: u64) -> usize
    requires { (d ≤ 4) × (at + 2 * d ≤ length points.old) }
    ensures { Puts at (coordinate_bytes d point) points.old result points.new }
{
    let mut left = point;
    for n in 0..d {
        let to = at + 2 * n;
        let coordinate = (left % 65536) as u16;
        points[to..to + 2].copy_from_slice(&coordinate.to_le_bytes());
        left /= 65536;
    }
    at + 2 * d
}

// Writes the vertices of a code, one after the other.
pub fn write_cell(code: &Code, points: &mut [u8])
    requires { points_length (dimension_of code.now) ≤ length points.old }
    ensures { CellWritten code.now points.old points.new }
{
    let bytes = code.bytes();
    let d = code.axes();
    let lows = lows_of(code);
    let side = side_of(code);
    let entries = fours::words::word_in(bytes, d);
    let split = check::split_of(bytes, d);
    let mut at = 0;
    for j in 0..=d {
        at = put_point(points, at, d, vertex_at(lows, side, entries, split, j));
    }
}
