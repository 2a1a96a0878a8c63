// The carry of a move to the box beside: the orthants change on the entry's axis from the last one back to the one that stops it.
// Where that is can't be foreseen, and it is mostly among the last four: these are one word, with no branch for each.
ghost use Rattle.std.specs.Prelude.{◌≡◌, ◌+◌, max, ◌≤◌, ◌<◌, length};
ghost use Rattle.bisection.specs.Codes.{axis, minus};
ghost use Rattle.bisection.specs.Theorems.Table.{flipped};
ghost use Rattle.moves.specs.Carrying.{Ends, Flips};
ghost use Rattle.moves.specs.CarryWords.{Stopping, Passed, FlippedFrom};

use entries::{check, words};

// The lowest bit of each of a word's bytes.
const ONES: u32 = 0x0101_0101;

// Of each orthant in a word, the lowest bit of its byte: 1 where it stops the carry of a move against the entry.
fn stopping(w: u32, e: u8) -> u32
    requires { (1 ≤ axis e) × (axis e ≤ 8) }
    ensures { Stopping (minus e) (axis e) w result }
{
    let high = (w >> (entries::axis_of(e) - 1)) & ONES;
    if entries::is_minus(e) {
        ONES - high
    } else {
        high
    }
}

// How many orthants of a word the carry passes, from the last one back.
fn passed(w: u32, e: u8) -> usize
    requires { (1 ≤ axis e) × (axis e ≤ 8) }
    ensures { Passed (minus e) (axis e) w result }
{
    (stopping(w, e).leading_zeros() / 8) as usize
}

// One more than the place of the orthant that stops the carry of a move against the entry, or `from` where none from there on does:
// the box lies at the cube's wall there.
pub fn carry_end(code: &[u8], from: usize, e: u8) -> usize
    requires { (4 ≤ length code.now) × (from ≤ length code.now) × (1 ≤ axis e) × (axis e ≤ 8) }
    ensures { Ends (minus e) (axis e) code.now from result }
{
    let n = code.len();
    let count = passed(words::word_at(code, n - 4), e);
    if count < 4 {
        return from.max(n - count);
    }
    for t in (from..n - 4).rev() {
        if !check::same_sign(e, code[t]) {
            return t + 1;
        }
    }
    from
}

// The orthant byte with its bit of the axis flipped.
fn flip(orthant: u8, axis: u8) -> u8
    requires { (1 ≤ axis) × (axis ≤ 8) }
    ensures { result ≡ flipped axis orthant }
{
    orthant ^ (1 << (axis - 1))
}

// The same of a word's orthants, from number `first` on.
fn flip_from(w: u32, first: usize, axis: u8) -> u32
    requires { (first < 4) × (1 ≤ axis) × (axis ≤ 8) }
    ensures { FlippedFrom first axis w result }
{
    w ^ ((ONES << (8 * first)) << (axis - 1))
}

// Flips the axis in the orthants from place `start` to place n: no more than the last four.
fn flip_last(buf: &mut [u8], start: usize, n: usize, axis: u8)
    requires { (n ≤ start + 4) × (4 ≤ n) × (start < n) × (n ≤ length buf.old) × (1 ≤ axis) × (axis ≤ 8) }
    ensures { Flips start n axis buf.old buf.new }
{
    let four = n - 4;
    let w = words::word_at(buf, four);
    words::put(flip_from(w, start - four, axis), buf, four);
}

// Flips the axis in the orthants from place `start` to place n.
pub fn carry(buf: &mut [u8], start: usize, n: usize, axis: u8)
    requires { (4 ≤ n) × (start < n) × (n ≤ length buf.old) × (1 ≤ axis) × (axis ≤ 8) }
    ensures { Flips start n axis buf.old buf.new }
{
    // Counted by hand: over a range this becomes a vector loop, and a crossing, which passes few orthants, was slower by 1 cycle in 130.
    let mut t = start;
    while t + 4 < n {
        buf[t] = flip(buf[t], axis);
        t += 1;
    }
    flip_last(buf, t, n, axis);
}
