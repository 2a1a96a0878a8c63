// Entries as one word, the first in its lowest byte.
ghost use Rattle.std.specs.Prelude.{◌≡◌, cond, ◌+◌, ◌/◌, ◌%◌, ◌^◌, ◌≤◌, ◌<◌, length, get_or, drop};
ghost use Rattle.std.proofs.Math.Seq.{paste};
ghost use Rattle.bisection.specs.Codes.{axis};
ghost use Rattle.bisection.specs.Theorems.Entries.{unturned};
ghost use Rattle.fours.specs.Fours.{four, no_entries, BackIs};
ghost use Rattle.entries.specs.Words.{bytes_of};
ghost use Rattle.fours.specs.Words.{WordIs};

use crate::Four;
use entries::{check, words};

// The word of four bytes.
impl From<Four> for u32 {
    ghost from_gives = { WordIs };

    fn from(e: Four) -> u32 {
        words::word_of(e.first, e.second, e.third, e.fourth)
    }
}

// The entries of a word.
impl From<u32> for Four {
    ghost from_gives = { λ w e. four e ≡ bytes_of w };

    fn from(w: u32) -> Four {
        let [first, second, third, fourth] = w.to_le_bytes();
        Four {
            first,
            second,
            third,
            fourth,
        }
    }
}

// The d entries of a code. The four bytes that end with the last of them are one word, and those of the head are shifted out of it:
// there is no branch on the dimension.
pub fn word_in(code: &[u8], d: usize) -> u32
    requires { (2 ≤ d) × (d ≤ 4) × (2 + d ≤ length code.now) }
    ensures { bytes_of result ≡ paste no_entries 0 (drop 2 code.now) d }
{
    words::word_at(code, d - 2) >> (8 * (4 - d))
}

// The same, by value.
pub fn entries_in(code: &[u8], d: usize) -> Four
    requires { (2 ≤ d) × (d ≤ 4) × (2 + d ≤ length code.now) }
    ensures { four result ≡ paste no_entries 0 (drop 2 code.now) d }
{
    Four::from(word_in(code, d))
}

// The first n + 1 entries turned right by one place, the one that comes to the first place negated.
fn turned_back(w: u32, n: usize) -> u32
    requires { n < 4 }
    ensures { bytes_of result ≡ unturned n (bytes_of w) }
{
    let bit = 8 * n;
    let above = (((w >> bit) >> 8) << 8) << bit;
    let turned = w - above;
    let last = turned >> bit;
    let first = entries::negate((last % 256) as u8);
    above + ((turned << 8) - ((last << bit) << 8)) + u32::from(first)
}

// The entries one step up, and the step.
#[derive(Clone, Copy)]
pub struct Back {
    pub before: u32,
    pub step: u8,
}

// Takes back the last step: entry n tells it by its sign against the parent's box. A walk up keeps the entries in one word: what is
// shifted as one need not be picked one by one.
pub fn unstep(w: u32, n: usize, own: u8) -> Back
    requires { (n < 4) × (1 ≤ axis (get_or (bytes_of w) n 0)) × (axis (get_or (bytes_of w) n 0) ≤ 8) }
    ensures { BackIs n own (bytes_of w) result.step (bytes_of result.before) }
{
    let same = check::same_sign(words::byte_at(w, n), own);
    let turned = turned_back(w, n);
    Back {
        before: common::pick(same, w, turned),
        step: common::pick(same, 0, 1),
    }
}
