// The moves of a crossing: the entries rearranged by value where it stays in its box, the orthants changed by carry where it leaves
// the box for the one beside it.
#![tactic(auto)]

pub mod carries; // carries.rt: where the carry ends, and its flips

ghost use Rattle.std.specs.Prelude.{◌≡◌, cond, ◌+◌, ◌*◌, ◌≤◌, ◌<◌};
ghost use Rattle.fours.specs.Fours.{four};
ghost use Rattle.moves.specs.Rearranging.{own_next, Rearranges, Movable, within, row_at, taken_by};

use entries::{check, words};
use fours::Four;

// The entries of the cell across, and the place of its new vertex.
#[derive(Clone, Copy)]
pub struct Moved {
    pub entries: Four,
    pub place: u8,
}

// The number of a row that stays in the box: 8 k + 2 i, and 1 more where entry k + 1 is against the box's own sign.
fn number(k: usize, i: usize, own: bool) -> usize
    requires { (1 ≤ k) × (k ≤ 4) × (i < 4) }
    ensures { (result ≡ 8 * k + 2 * i + cond own 0 1) × (8 ≤ result) × (result < 40) }
{
    8 * k + 2 * i + common::pick(own, 0, 1)
}

// A row of the rule table, as a word. Of each new entry, the first in the lowest byte, it says at which bit of the old entries' word
// the old one begins, and 128 more where it is negated; the new vertex's place stands at bit 5. One table and no branch: which row it
// is can't be foreseen. Rows 32 and 33 are not used: facet 0 leaves the box where k is 4.
#[tactic(auto, unfolding(crate::specs::Rearranging::row_at))]
fn row(n: usize) -> u32
    requires { (8 ≤ n) × (n < 40) }
    ensures { result ≡ row_at n }
{
    match n {
        8 => 0x1810_8028,
        9 => 0x1810_8088,
        10 => 0x1810_0028,
        11 => 0x1810_0088,
        12 => 0x1808_1040,
        13 => 0x1808_1040,
        14 => 0x1018_0860,
        15 => 0x1018_0860,
        16 => 0x1880_1048,
        17 => 0x1880_0890,
        18 => 0x1810_0028,
        19 => 0x1810_0028,
        20 => 0x1808_1040,
        21 => 0x1808_0090,
        22 => 0x1018_0860,
        23 => 0x1018_0860,
        24 => 0x8018_1068,
        25 => 0x8010_0898,
        26 => 0x1810_0028,
        27 => 0x1810_0028,
        28 => 0x1808_1040,
        29 => 0x1808_1040,
        30 => 0x1018_0860,
        31 => 0x1008_0098,
        32 => 0x8018_1088,
        33 => 0x1810_0880,
        34 => 0x1810_0028,
        35 => 0x1810_0028,
        36 => 0x1808_1040,
        37 => 0x1808_1040,
        38 => 0x1018_0860,
        39 => 0x1018_0860,
        _ => 0,
    }
}

// A new entry, taken from the word of the old ones as a row's byte says.
#[tactic(auto, unfolding(crate::specs::Rearranging::taken_by, bisection::specs::Codes::minus))]
fn taken(old: u32, from: u32) -> u8
    ensures { result ≡ taken_by old from }
{
    let e = words::byte(old, from % 32);
    if 128 <= from % 256 {
        entries::negate(e)
    } else {
        e
    }
}

// The entries of the cell across a facet that stays in the box. Where the dimension has no entry k + 1 the first one stands for it:
// the row is the same either way.
pub fn rearranged(e: Four, d: usize, k: usize, i: usize, own: u8) -> Moved
    requires { Movable d k i e }
    ensures { Rearranges k (within k i (own_next k own (four e))) (four e) result.place (four result.entries) }
{
    let old = u32::from(e);
    let next = words::byte_at(old, check::place_in(k, d));
    let by = row(number(k, i, check::same_sign(next, own)));
    Moved {
        entries: Four {
            first: taken(old, by),
            second: taken(old, by >> 8),
            third: taken(old, by >> 16),
            fourth: taken(old, by >> 24),
        },
        place: ((by >> 5) % 4) as u8,
    }
}
