// Crossing a facet: the cell across it at the same depth, and its new vertex: the place and the coordinates. The entry takes any bytes
// and numbers; an early `return` for each refusal stands in document 01's order, and nothing is written before the
// last refusal is past. A crossing stays in the cell's box, where it rearranges the entries, or leaves it for the
// box beside it, where the orthants change by carry.
#![tactic(auto)]

ghost use Rattle.std.specs.Prelude.{◌≡◌, false};
ghost use Rattle.bisection.specs.Codes.{orthants_of};
ghost use Rattle.corners.specs.Lows.{lows_in};
ghost use Rattle.crossing.specs.Outcome.{Crosses};
ghost use Rattle.crossing.specs.Unpacking.{Unpacked};
ghost use Rattle.crossing.specs.Forms.{crossed};
ghost use Rattle.crossing.specs.Answers.{Whole};
ghost use Rattle.crossing.specs.Landing.{Answerable, Lands};
ghost use Rattle.crossing.specs.Leaving.{Leaving};
ghost use Rattle.crossing.specs.Staying.{Staying};

use bisection::{DONE, Refusal};
use entries::check;
use entries::code::Code;
use fours::words;
use moves::carries;
use steps::buffers;

// A vertex by value: its coordinate on each axis, axis 1 first, and 0 on an axis that the dimension lacks.
#[repr(C)]
#[derive(Clone, Copy)]
pub struct Vertex {
    pub first: u16,
    pub second: u16,
    pub third: u16,
    pub fourth: u16,
}

// The vertex that a point's word gives.
impl From<u64> for Vertex {
    ghost from_gives = { Unpacked };

    fn from(point: u64) -> Vertex {
        Vertex {
            first: (point % 65536) as u16,
            second: ((point >> 16) % 65536) as u16,
            third: ((point >> 32) % 65536) as u16,
            fourth: (point >> 48) as u16,
        }
    }
}

// The answer: the place of the new vertex, how many bytes of the code across stand at the buffer's front, and the new vertex.
#[derive(Clone, Copy)]
pub struct Crossing {
    pub place: u8,
    pub length: usize,
    pub vertex: Vertex,
}

// The same for a C program.
#[repr(C)]
#[derive(Clone, Copy)]
pub struct Crossed {
    pub refusal: u8,
    pub place: u8,
    pub length: usize,
    pub vertex: Vertex,
}

impl From<Result<Crossing, Refusal>> for Crossed {
    ghost from_gives = { λ answer form. form ≡ crossed answer };

    fn from(answer: Result<Crossing, Refusal>) -> Crossed {
        match answer {
            Ok(
                Crossing {
                    place,
                    length,
                    vertex,
                },
            ) => Crossed {
                refusal: DONE,
                place,
                length,
                vertex,
            },
            Err(refusal) => Crossed {
                refusal: refusal.into(),
                place: 0,
                length: 0,
                vertex: Vertex {
                    first: 0,
                    second: 0,
                    third: 0,
                    fourth: 0,
                },
            },
        }
    }
}

// Where a crossing lands: the place of the new vertex, and whether it left its box for the one beside it.
#[derive(Clone, Copy)]
pub struct Landing {
    pub place: u8,
    pub beside: bool,
}

// The low sides of the box across. Where the crossing stays in its box they are read off the first code: what has just been written
// would be waited for.
fn lows_across(beside: bool, code: &Code, across: &Code) -> u64
    requires { beside ≡ false → orthants_of code.now ≡ orthants_of across.now }
    ensures { result ≡ lows_in (orthants_of across.now) }
{
    if beside {
        corners::lows_of(across)
    } else {
        corners::lows_of(code)
    }
}

// The answer where a crossing landed, with the code across. The new vertex is read off that code, and no other vertex is drawn.
fn answer(landing: Landing, code: &Code, across: &Code) -> Crossing
    requires { Answerable landing code.now across.now }
    ensures { Whole landing.place across.now result }
{
    let lows = lows_across(landing.beside, code, across);
    Crossing {
        place: landing.place,
        length: across.bytes().len(),
        vertex: corners::vertex(across, lows, usize::from(landing.place)).into(),
    }
}

// The crossing stays in the box.
fn cross_inside(
    code: &[u8],
    d: usize,
    k: usize,
    facet: u8,
    out: &mut [u8],
) -> Result<Landing, Refusal>
    requires { Staying code.now d k facet }
    ensures { Lands code.now facet out.old result out.new }
{
    let length = code.len();
    if out.len() < length {
        return Err(Refusal::Short);
    }
    let moved = moves::rearranged(
        words::entries_in(code, d),
        d,
        k,
        usize::from(facet),
        check::own_byte(code, d),
    );
    buffers::copy_front(code, length, out);
    fours::write(moved.entries, d, out, 2);
    Ok(Landing {
        place: moved.place,
        beside: false,
    })
}

// The crossing leaves the box, against the entry e; the one at place `at` changes its sign, and the new vertex stands
// where the old one did.
fn cross_outside(
    code: &[u8],
    d: usize,
    at: usize,
    e: u8,
    facet: u8,
    out: &mut [u8],
) -> Result<Landing, Refusal>
    requires { Leaving code.now d at e facet }
    ensures { Lands code.now facet out.old result out.new }
{
    let end = carries::carry_end(code, 2 + d, e);
    if end == 2 + d {
        return Err(Refusal::Face);
    }
    let length = code.len();
    if out.len() < length {
        return Err(Refusal::Short);
    }
    let turned = entries::negate(code[2 + at]);
    buffers::copy_front(code, length, out);
    carries::carry(out, end - 1, length, entries::axis_of(e));
    out[2 + at] = turned;
    Ok(Landing {
        place: facet,
        beside: true,
    })
}

// Crosses a facet of a code, and tells where that lands.
fn land(code: &Code, facet: u8, out: &mut [u8]) -> Result<Landing, Refusal>
    ensures { Lands code.now facet out.old result out.new }
{
    let bytes = code.bytes();
    let d = code.axes();
    let i = usize::from(facet);
    if d < i {
        return Err(Refusal::Step);
    }
    let k = check::split_of(bytes, d);
    // across facet d, and across facet 0 at the start of a level
    if common::pick(i == 0, k, i) == d {
        let at = common::pick(i == 0, 0, d - 1);
        let entry = bytes[2 + at];
        let e = common::pick(i == 0, entries::negate(entry), entry);
        return cross_outside(bytes, d, at, e, facet, out);
    }
    cross_inside(bytes, d, k, facet, out)
}

// The cell across a facet of a code that has been checked.
pub fn cross_checked(code: &Code, facet: u8, out: &mut [u8]) -> Result<Crossing, Refusal>
    ensures { Crosses code.now facet out.old (crossed result) out.new }
{
    let landing = land(code, facet, out)?;
    let length = code.bytes().len();
    let across = &out[..length];
    Ok(answer(landing, code, &Code::known(across)))
}

// Across a facet lies a cell that has all its vertices, or a face of the cube.
pub fn cross(code: &[u8], facet: u8, out: &mut [u8]) -> Result<Crossing, Refusal>
    ensures { Crosses code.now facet out.old (crossed result) out.new }
{
    cross_checked(&codes::checked(code)?, facet, out)
}
