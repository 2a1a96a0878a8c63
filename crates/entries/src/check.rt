// The tests of a code's body: its permutation and its signs, by masks of its entries' one word, and its orthant bytes.
ghost use Rattle.std.specs.Prelude.{◌≡◌, ◌+◌, ◌-◌, ◌^◌, min, ◌≤◌, ◌<◌, All, length, drop, cond, ltb};
ghost use Rattle.dimension.specs.Sizes.{halvings, code_length, split_place};
ghost use Rattle.bisection.specs.Codes.{axis, minus, high, depth_of};
ghost use Rattle.bisection.specs.Refusals.{permutes, orthants_fit, same_sign, is_root, is_path};
ghost use Rattle.entries.specs.Fitting.{OrthantsFrom};
ghost use Rattle.entries.specs.Marks.{JoinOf};
ghost use Rattle.entries.specs.SignMasks.{AxesWithin};
ghost use Rattle.entries.specs.Words.{bytes_of, NoneBehind};
ghost use Rattle.entries.specs.Walks.{own_byte, signs_by};

use crate::words;
use dimension::Dim;

// The split place of a code of dimension d that has its length: that tells how many boxes there are, so that nothing is divided.
pub fn split_of(code: &[u8], d: usize) -> usize
    requires { (1 ≤ d) × (length code.now ≡ code_length d (depth_of code.now)) }
    ensures { result ≡ split_place d (depth_of code.now) }
{
    let boxes = code.len() - 2 - d;
    d - (usize::from(code[1]) - d * boxes)
}

// The place, or the first one where there are no more than n. A walk that reads a place again instead of ending has one length
// for every code: a loop whose end is not foreseen costs more than the steps it saves.
pub fn place_in(i: usize, n: usize) -> usize
    ensures { result ≡ cond (ltb i n) i 0 }
{
    if i < n { i } else { 0 }
}

// The marks of a word's four entries, as one mask. Each byte is read where it is marked: with all of them taken off the word at first,
// by `to_le_bytes`, the test of a code took 1.05 times as long by measurement.
fn marks_in<F: Fn(u8) -> u32>(entries: u32, mark: F) -> u32
    requires { All (F.pre mark) (bytes_of entries) }
    ensures { JoinOf (F.post mark) (bytes_of entries) result }
{
    mark(words::byte(entries, 0))
        | mark(words::byte(entries, 8))
        | mark(words::byte(entries, 16))
        | mark(words::byte(entries, 24))
}

// The bits of four entries that are 0 where no axis is above 7.
const PAST_SEVEN: u32 = 0x7878_7878;

// The d entries of a word have the axes 1..d, none repeated: d entries whose marks are those of 1..d have each axis just once. What
// stands behind them is 0, which has no mark.
pub fn permuted(entries: u32, d: usize) -> bool
    requires { (1 ≤ d) × (d ≤ 4) × NoneBehind d (bytes_of entries) }
    ensures { result ≡ permutes d (bytes_of entries) }
{
    entries & PAST_SEVEN == 0 && marks_in(entries, crate::mark_of) == (1 << d) - 1
}

// Four orthants of a code as a word, from number i on or the last four; where there are fewer, they are all there, with zeros behind.
// They begin at place `first`.
fn orthants_from(code: &[u8], first: usize, i: usize) -> u32
    requires { (4 ≤ length code.now) × (first < length code.now) × (first + i < 2 ^ 64) }
    ensures { OrthantsFrom (drop first code.now) i result }
{
    let n = code.len();
    let w = words::word_at(code, (first + i).min(n - 4));
    w >> (8 * (4 - (n - first).min(4)))
}

// No orthant byte of a code of dimension d has a bit at d or above: the bytes or-ed have none, four at a time. There are no more than
// halvings.
pub fn orthants_fit(code: &[u8], d: usize) -> bool
    requires { (2 ≤ d) × (d < 8) × (2 + d ≤ length code.now) × (length code.now ≤ 2 + d + halvings) }
    ensures { result ≡ orthants_fit d (drop (2 + d) code.now) }
{
    let first = 2 + d;
    if code.len() == first {
        return true;
    }
    let mut any: u32 = 0;
    for i in (0..Dim::HALVINGS).step_by(4) {
        any |= orthants_from(code, first, i);
    }
    let [a, b, c, e] = any.to_le_bytes();
    (a | b | c | e) >> d == 0
}

// The last orthant byte of a code of dimension d, 0 where it has none: high where the box's own sign is minus.
pub fn own_byte(code: &[u8], d: usize) -> u8
    requires { (d ≤ 8) × (2 + d ≤ length code.now) }
    ensures { result ≡ own_byte (drop (2 + d) code.now) }
{
    code[2 + d..].last().copied().unwrap_or(0)
}

// The entry carries the own sign that the orthant byte gives its axis: the byte's bit is the entry's minus, bit 7.
pub fn same_sign(e: u8, own: u8) -> bool
    requires { (1 ≤ axis e) × (axis e ≤ 8) }
    ensures { result ≡ same_sign (minus e) (high own (axis e)) }
{
    (own >> (crate::axis_of(e) - 1)) & 1 == e >> 7
}

// The first k entries carry the own sign that the orthant byte gives: of their axes, it is high on the negated ones and on no other.
pub fn signs_by(entries: u32, k: usize, own: u8) -> bool
    requires { (1 ≤ k) × (k ≤ 4) × AxesWithin k (bytes_of entries) }
    ensures { result ≡ signs_by k (bytes_of entries) own }
{
    let first = words::first(entries, k);
    let axes = marks_in(first, crate::mark_of);
    axes & u32::from(own) == marks_in(first, crate::minus_mark_of)
}

// The bytes are those of a root: a permutation of the axes, and no byte with a sign.
pub fn is_root(root: &[u8]) -> bool
    requires { (1 ≤ length root.now) × (length root.now ≤ 4) }
    ensures { result ≡ is_root root.now }
{
    permuted(words::first_word(root), root.len()) && root.iter().all(|e| !crate::is_minus(*e))
}

// The bytes are those of a path: each is 0 or 1.
pub fn is_path(path: &[u8]) -> bool
    ensures { result ≡ is_path path.now }
{
    path.iter().all(|step| *step <= 1)
}
