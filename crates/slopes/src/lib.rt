// The slope of the grey field in a cell: that of the only linear function through the samples at its vertices. Along an entry it is a
// difference of samples over the box's side, and the entry's axis and sign say where it goes.
#![tactic(auto)]

ghost use Rattle.std.specs.Prelude.{◌≡◌, suc, ◌-◌, ◌*◌, ◌^◌, ◌≤◌, ◌<◌, length};
ghost use Rattle.bisection.specs.Codes.{axis, minus, dimension_of};
ghost use Rattle.bisection.specs.Theorems.Slopes.One.{by_sign};
ghost use Rattle.greys.specs.Fractions.{Quotient, Power};
ghost use Rattle.slopes.specs.Slopes.{flat_of};
ghost use Rattle.slopes.specs.Along.{rising_by, falling_by};
ghost use Rattle.slopes.specs.Gathering.{SlopesOf};

use bisection::{DONE, Refused};
use entries::code::Code;
use entries::{check, words};

// The slope on each axis; +0.0 on an axis that the dimension has not.
#[repr(C)]
#[derive(Clone, Copy)]
pub struct Slopes {
    pub first: f64,
    pub second: f64,
    pub third: f64,
    pub fourth: f64,
}

// The answer of a slope query, for a C program: the slopes, or a refusal and its offset.
#[repr(C)]
#[derive(Clone, Copy)]
pub struct SlopeAnswer {
    pub refusal: u8,
    pub offset: usize,
    pub slopes: Slopes,
}

// A refusal's slopes are +0.0.
impl From<Result<Slopes, Refused>> for SlopeAnswer {
    ghost from_gives = { λ slope answer. answer ≡ flat_of slope };

    fn from(slope: Result<Slopes, Refused>) -> SlopeAnswer {
        match slope {
            Ok(slopes) => SlopeAnswer {
                refusal: DONE,
                offset: 0,
                slopes,
            },
            Err(refused) => SlopeAnswer {
                refusal: refused.refusal.into(),
                offset: refused.offset,
                slopes: Slopes {
                    first: 0.0,
                    second: 0.0,
                    third: 0.0,
                    fourth: 0.0,
                },
            },
        }
    }
}

// What rises along entry i: the sample after it, twice past the split place, where an entry is half a side long.
fn rising(next: u64, split: usize, i: usize) -> u64
    requires { next < 2 ^ 24 }
    ensures { result ≡ rising_by split i next }
{
    common::pick(i < split, next, 2 * next)
}

// What falls: the sample before it, and past the split place once more; but the first entry there goes from the middle of vertex 0 and
// the vertex before it.
fn falling(first: u64, before: u64, split: usize, i: usize) -> u64
    requires { (first < 2 ^ 24) × (before < 2 ^ 24) }
    ensures { result ≡ falling_by split i first before }
{
    before + common::pick(i < split, 0, common::pick(i == split, first, before))
}

// A difference over the box's side, by an entry's sign. For a minus the two change places: a float that is negated would be -0.0 where
// nothing rises.
fn by_sign(e: u8, up: u64, down: u64, side: u64) -> f64
    requires { (up < 2 ^ 53) × (down < 2 ^ 53) × Power side }
    ensures { Quotient result (by_sign (minus e) up down) side }
{
    let minus = entries::is_minus(e);
    greys::quotient(
        common::pick(minus, down, up),
        common::pick(minus, up, down),
        side,
    )
}

// The slope on the axis of entry i, which is e: by the first sample, the one before it and the one after.
fn along(e: u8, i: usize, split: usize, first: u64, before: u64, next: u64, side: u64) -> f64
    requires { (first < 2 ^ 24) × (before < 2 ^ 24) × (next < 2 ^ 24) × Power side }
    ensures { Quotient result (by_sign (minus e) (rising_by split i next) (falling_by split i first before)) side }
{
    by_sign(
        e,
        rising(next, split, i),
        falling(first, before, split, i),
        side,
    )
}

// Where an entry's axis has its slope.
fn place(e: u8) -> usize
    requires { 1 ≤ axis e }
    ensures { result ≡ axis e - 1 }
{
    usize::from(entries::axis_of(e)) - 1
}

// The slopes in the cell of a code, with the samples at its vertices, of a width in bytes each.
pub fn in_cell(code: &Code, samples: &[u8], width: u8) -> Slopes
    requires { (width * suc (dimension_of code.now) ≤ length samples.now) × (width ≤ 3) }
    ensures { SlopesOf code.now width samples.now result }
{
    let d = code.axes();
    let side = corners::side_of(code);
    let entries = fours::words::word_in(code.bytes(), d);
    let split = check::split_of(code.bytes(), d);
    let bytes = usize::from(width);
    let first = greys::sample(samples, bytes, 0);
    let mut on: [f64; 4] = [0.0; 4];
    let mut before = first;
    for i in 0..d {
        let next = greys::sample(samples, bytes, i + 1);
        let e = words::byte_at(entries, i);
        on[place(e)] = along(e, i, split, first, before, next, side);
        before = next;
    }
    Slopes {
        first: on[0],
        second: on[1],
        third: on[2],
        fourth: on[3],
    }
}
