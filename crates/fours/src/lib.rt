// Entries by value: four named entries. A dimension with fewer axes leaves the last ones 0. Nothing here branches on a place
// or on an entry: which step comes is not foreseen, and a branch on it costs more than both sides.
#![tactic(auto)]

pub mod words; // words.rt: entries as one word

ghost use Rattle.std.specs.Prelude.{◌≡◌, cond, suc, ◌+◌, ◌≤◌, ◌<◌, ltb, length, get_or, drop};
ghost use Rattle.std.proofs.Math.Seq.{paste};
ghost use Rattle.bisection.specs.Codes.{axis, turned, stepped};
ghost use Rattle.bisection.specs.Theorems.Entries.{unturned};
ghost use Rattle.fours.specs.Fours.{four, no_entries, part_of, SameFour, OwnIs};

use entries::check;

#[derive(Clone, Copy, PartialEq, Eq)]
pub struct Four {
    pub first: u8,
    pub second: u8,
    pub third: u8,
    pub fourth: u8,
}

// The entry at a place.
pub fn entry(e: Four, n: usize) -> u8
    requires { n < 4 }
    ensures { result ≡ get_or (four e) n 0 }
{
    common::pick(
        n == 0,
        e.first,
        common::pick(n == 1, e.second, common::pick(n == 2, e.third, e.fourth)),
    )
}

// The d entries that stand from a place on, and 0 for those that the dimension lacks. A branch, since the dimension is foreseen.
pub fn entries_of(bytes: &[u8], at: usize, d: usize) -> Four
    requires { (2 ≤ d) × (d ≤ 4) × (at + d ≤ length bytes.now) }
    ensures { four result ≡ paste no_entries 0 (drop at bytes.now) d }
{
    let entries = &bytes[at..at + d];
    Four {
        first: entries[0],
        second: entries[1],
        third: entries.get(2).copied().unwrap_or(0),
        fourth: entries.get(3).copied().unwrap_or(0),
    }
}

// Writes the first d of them from a place on. One that the dimension lacks goes to the first place, and is overwritten.
// A copy of a slice of d bytes would call memcpy, which the C library may not need (.ci/symbols).
pub fn write(e: Four, d: usize, out: &mut [u8], at: usize)
    requires { (2 ≤ d) × (d ≤ 4) × (at + d ≤ length out.old) }
    ensures { out.new ≡ paste out.old at (four e) d }
{
    out[at + check::place_in(3, d)] = e.fourth;
    out[at + check::place_in(2, d)] = e.third;
    out[at + 1] = e.second;
    out[at] = e.first;
}

// The entries are the same, one by one: by the derive's `==`, which makes words of them, the sheet check took 3 to 9 % more instructions.
pub fn same(a: Four, b: Four) -> bool
    ensures { SameFour a b result }
{
    a.first == b.first && a.second == b.second && a.third == b.third && a.fourth == b.fourth
}

// The first n + 1 entries turned left by one place, the one that comes to place n negated.
pub fn turned_on(e: Four, n: usize) -> Four
    requires { n < 4 }
    ensures { four result ≡ turned (suc n) (four e) }
{
    let moved = entries::negate(e.first);
    Four {
        first: common::pick(n == 0, moved, e.second),
        second: common::pick(n == 1, moved, common::pick(1 < n, e.third, e.second)),
        third: common::pick(n == 2, moved, common::pick(2 < n, e.fourth, e.third)),
        fourth: common::pick(n == 3, moved, e.fourth),
    }
}

// The step to a child: child 1 turns the first n + 1 entries. The four are picked one by one: with one pick of both values a walk down
// a path took 1.2 times as long by measurement.
pub fn step(e: Four, n: usize, which: u8) -> Four
    requires { n < 4 }
    ensures { four result ≡ stepped which (suc n) (four e) }
{
    let same = which == 0;
    let turned = turned_on(e, n);
    Four {
        first: common::pick(same, e.first, turned.first),
        second: common::pick(same, e.second, turned.second),
        third: common::pick(same, e.third, turned.third),
        fourth: common::pick(same, e.fourth, turned.fourth),
    }
}

// The first n + 1 entries turned right by one place, the one that comes to the first place negated.
pub fn turned_back(e: Four, n: usize) -> Four
    requires { n < 4 }
    ensures { four result ≡ unturned n (four e) }
{
    Four {
        first: entries::negate(entry(e, n)),
        second: common::pick(0 < n, e.first, e.second),
        third: common::pick(1 < n, e.second, e.third),
        fourth: common::pick(2 < n, e.third, e.fourth),
    }
}

// An entry's part in an orthant: high on its axis, 1 to 7, where it has a minus.
fn part_of(e: u8) -> u8
    ensures { result ≡ part_of e }
{
    common::pick(
        entries::is_minus(e),
        (1 << (entries::axis_of(e) % 8)) / 2,
        0,
    )
}

// The orthant that the entries give.
pub fn own_of(e: Four) -> u8
    ensures { OwnIs e result }
{
    part_of(e.fourth) | part_of(e.third) | part_of(e.second) | part_of(e.first)
}
