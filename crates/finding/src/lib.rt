// Finding a cell in a checked sheet. The leaves fill the line of all cells, so the leaf whose part holds a place is found by adding up
// sizes: of each record its depth is read alone.
#![tactic(auto)]

pub mod opened; // opened.rt: the whole check of a sheet

ghost use Rattle.std.specs.Prelude.{◌≡◌, suc, ◌+◌, ◌-◌, ◌*◌, ◌^◌, ◌≤◌, ◌<◌, length};
ghost use Rattle.dimension.specs.Sizes.{axes_of, greatest_depth, code_length};
ghost use Rattle.codes.specs.Fronts.{front_depth};
ghost use Rattle.sheets.specs.Steps.{mark_of};
ghost use Rattle.finding.specs.Distances.{BetweenReady, BetweenIs, JoinReady, JoinedIs};
ghost use Rattle.finding.specs.Finding.{Indexed, FindReady, FoundIs};
ghost use Rattle.finding.specs.Records.{onward};
ghost use Rattle.finding.specs.Theorems.OneOfThree.{KindIs};
ghost use Rattle.finding.specs.Seeks.{SeekReady, SoughtIs};
ghost use Rattle.finding.specs.Indexes.{WalkReady, WalkedIs, FillReady, FilledIs, DrawReady, IndexReady, AboutReady};
ghost use Rattle.finding.specs.Finds.{RunsReady, RunFor, RunReady, HeldIs, Nearer, NearestIs};

use dimension::Dim;
use positions::Position;
use sheets::Edition;
use std::cmp::Ordering;

// How far a place is ahead: whole stretches of a root, and a part of one. In one number it would not fit for all limits. The stretches
// decide which of two is farther.
#[derive(Clone, Copy, PartialEq, Eq, PartialOrd, Ord)]
pub struct Ahead {
    pub stretches: usize,
    pub part: u64,
}

impl Ahead {
    // How far a place is beyond another, which is no later.
    #[tactic(auto, using(crate::specs::Distances::between_back, crate::specs::Distances::between_on))]
    fn beyond(self, other: Ahead, stretch: u64) -> Ahead
        requires { BetweenReady other self stretch }
        ensures { BetweenIs other self stretch result }
    {
        let stretches = self.stretches - other.stretches;
        if self.part < other.part {
            Ahead {
                stretches: stretches - 1,
                part: self.part + (stretch - other.part),
            }
        } else {
            Ahead {
                stretches,
                part: self.part - other.part,
            }
        }
    }

    // The same place, and a cell's part more.
    fn joined(self, size: u64, stretch: u64) -> Ahead
        requires { JoinReady self size stretch }
        ensures { JoinedIs self size stretch result }
    {
        let part = self.part + size;
        if part < stretch {
            Ahead {
                stretches: self.stretches,
                part,
            }
        } else {
            Ahead {
                stretches: self.stretches + 1,
                part: part - stretch,
            }
        }
    }
}

// A record of a checked sheet: its number, where it begins, and how deep its leaf is.
#[derive(Clone, Copy)]
pub struct Sought {
    pub number: usize,
    pub offset: usize,
    pub depth: usize,
}

// An entry of an index: where its record begins, and how far its leaf is from the front of the line.
#[derive(Clone, Copy)]
pub struct Entry {
    pub offset: usize,
    pub place: Ahead,
}

impl Entry {
    // That of the first record.
    pub const FRONT: Entry = Entry {
        offset: 0,
        place: Ahead {
            stretches: 0,
            part: 0,
        },
    };
}

// Entries of an index that stand one behind the other: so many, from number `at` on. The first is of record number `first`, each next
// one of a record a stride behind.
#[derive(Clone, Copy)]
pub struct Run {
    pub at: usize,
    pub entries: usize,
    pub first: usize,
    pub stride: usize,
}

// How the entries of an index are spread over a checked sheet: coarse ones, as evenly over all records as there is room, and behind them
// fine ones, of each record about one of them. Cells that are asked for one after the other are mostly near each other, and a fine entry
// spares the walk.
#[derive(Clone, Copy)]
pub struct Spread {
    pub coarse: Run,
    pub fine: Run,
}

// An index of a checked sheet, to be read. The caller lends the entries.
#[derive(Clone, Copy)]
pub struct Index<'a> {
    pub entries: &'a [Entry],
    pub spread: Spread,
}

// How a cell is among the leaves: it is the leaf of the record, it lies in that leaf, or that leaf is the first of those inside it.
#[derive(Clone, Copy)]
pub enum Kind {
    Leaf,
    Inside,
    Split,
}

// What is found of a cell: which of the three it is, and of which record.
#[derive(Clone, Copy)]
pub struct Found {
    pub kind: Kind,
    pub sought: Sought,
}

// Which of the three it is, by how long the parts of the leaf and of the cell are.
fn kind_of(leaf: u64, cell: u64) -> Kind
    ensures { KindIs leaf cell result }
{
    match cell.cmp(&leaf) {
        Ordering::Equal => Kind::Leaf,
        Ordering::Less => Kind::Inside,
        Ordering::Greater => Kind::Split,
    }
}

impl<'a> Index<'a> {
    // The entries to search for a place: the fine ones where they hold it.
    fn run_for(self, place: Ahead) -> Run
        requires { RunsReady self.entries.now self.spread }
        ensures { RunFor self.entry.entries.now self.entry.spread place result }
    {
        let fine = self.spread.fine;
        let last = fine.at + (fine.entries - 1);
        if self.entries[fine.at].place <= place && place <= self.entries[last].place {
            fine
        } else {
            self.spread.coarse
        }
    }

    // The last entry of a run, by halving, that is no later than a place.
    fn nearest(self, run: Run, place: Ahead) -> usize
        requires { Nearer self.entries.now run.at (run.at + run.entries) place run.at (run.at + run.entries) }
        ensures { NearestIs self.entry.entries.now run.at (run.at + run.entries) place result }
    {
        // `partition_point` was slower by measurement: it makes a test more.
        let mut low = run.at;
        let mut high = run.at + run.entries;
        while low + 1 < high {
            let middle = low + (high - low) / 2;
            if self.entries[middle].place <= place {
                low = middle;
            } else {
                high = middle;
            }
        }
        low
    }
}

// A checked sheet: its edition, its bytes, and the dimension that its records name.
#[derive(Clone, Copy)]
pub struct Sheet<'a> {
    pub edition: Edition,
    pub bytes: &'a [u8],
    pub dim: Dim,
}

impl<'a> Sheet<'a> {
    // How many bytes a record has whose leaf is so deep.
    #[tactic(auto, using(dimension::specs::Laws::axes_dimension, crate::specs::Records::code_few))]
    pub fn record_length(self, depth: usize) -> usize
        requires { depth ≤ greatest_depth (axes_of self.dim) }
        ensures { result ≡ length (mark_of self.entry.edition) + (code_length (axes_of self.entry.dim) depth + self.entry.edition.width * suc (axes_of self.entry.dim)) }
    {
        let samples = sheets::samples_length_in(self.edition.width, self.dim);
        sheets::MARK_LENGTH + (self.dim.code_length(depth) + samples)
    }

    // How deep the leaf is of the record at an offset.
    pub fn depth_at(self, offset: usize) -> usize
        requires { offset + length (mark_of self.edition) + 2 ≤ length self.bytes.now }
        ensures { result ≡ front_depth (onward self.entry.bytes.now (offset + length (mark_of self.entry.edition))) }
    {
        codes::code_depth(&self.bytes[offset + sheets::MARK_LENGTH..])
    }

    // How long a root's stretch of the line is.
    #[tactic(auto, using(dimension::specs::Laws::axes_range, dimension::specs::Laws::depth_small))]
    pub fn stretch(self) -> u64
        ensures { result ≡ 2 ^ greatest_depth (axes_of self.entry.dim) }
    {
        positions::power(self.dim.greatest_depth())
    }

    // How long the part of the line is that a cell has which is so deep.
    #[tactic(auto, using(dimension::specs::Laws::axes_range, dimension::specs::Laws::depth_small))]
    pub fn part(self, depth: usize) -> u64
        requires { depth ≤ greatest_depth (axes_of self.dim) }
        ensures { result ≡ 2 ^ (greatest_depth (axes_of self.entry.dim) - depth) }
    {
        positions::power(self.dim.greatest_depth() - depth)
    }

    // The record whose leaf's part of the line holds a place, sought from a record on: its number, where it begins, and how far the
    // place is ahead of it.
    pub fn seek(self, first: usize, begins: usize, place: Ahead) -> Sought
        requires { SeekReady (mark_of self.edition) self.edition.width self.bytes.now (axes_of self.dim) first begins place }
        ensures { SoughtIs (mark_of self.entry.edition) self.entry.edition.width self.entry.bytes.now (axes_of self.entry.dim) first begins place result }
    {
        let stretch = self.stretch();
        let mut number = first;
        let mut offset = begins;
        let mut ahead = place;
        // How many records are on the way is not known before, so no `for` counts them.
        loop {
            let depth = self.depth_at(offset);
            let cell = Ahead {
                stretches: 0,
                part: self.part(depth),
            };
            if cell > ahead {
                return Sought {
                    number,
                    offset,
                    depth,
                };
            }
            ahead = ahead.beyond(cell, stretch);
            offset += self.record_length(depth);
            number += 1;
        }
    }

    // The entry of the record so many behind that of an entry.
    fn walk(self, from: Entry, records: usize) -> Entry
        requires { WalkReady (mark_of self.edition) self.edition.width self.bytes.now (axes_of self.dim) from records }
        ensures { WalkedIs (mark_of self.entry.edition) self.entry.edition.width self.entry.bytes.now (axes_of self.entry.dim) from records result }
    {
        let stretch = self.stretch();
        let Entry {
            mut offset,
            mut place,
        } = from;
        for _ in 0..records {
            let depth = self.depth_at(offset);
            place = place.joined(self.part(depth), stretch);
            offset += self.record_length(depth);
        }
        Entry { offset, place }
    }

    // Fills the entries of a run, of which the first is given.
    fn fill(self, entries: &mut [Entry], from: Entry, run: Run)
        requires { FillReady (mark_of self.edition) self.edition.width self.bytes.now (axes_of self.dim) entries.old from run }
        ensures { FilledIs (mark_of self.entry.edition) self.entry.edition.width self.entry.bytes.now (axes_of self.entry.dim) entries.old run entries.new }
    {
        let mut entry = from;
        entries[run.at] = entry;
        for n in 1..run.entries {
            entry = self.walk(entry, run.stride);
            entries[run.at + n] = entry;
        }
    }

    // Draws the fine entries from number `at` on, as many as there is room for: a quarter of them before a record, the others from it on.
    fn draw_fine(
        self,
        records: usize,
        entries: &mut [Entry],
        coarse: Run,
        at: usize,
        number: usize,
    ) -> Run
        requires { DrawReady (mark_of self.edition) self.edition.width self.bytes.now (axes_of self.dim) records entries.old coarse at number }
        ensures { Indexed (mark_of self.entry.edition) self.entry.edition.width self.entry.bytes.now (axes_of self.entry.dim) entries.new (record { coarse = coarse; fine = result }) }
    {
        let room = entries.len() - at;
        let e = number.saturating_sub(room / 4) / coarse.stride;
        let first = e * coarse.stride;
        let fine = Run {
            at,
            entries: room.min(records - first),
            first,
            stride: 1,
        };
        let from = entries[coarse.at + e];
        self.fill(entries, from, fine);
        fine
    }

    // Fills an index of so many records: one pass over the sheet. A tenth of the room is for the fine entries, which are drawn at the
    // sheet's front.
    pub fn index_of(self, records: usize, entries: &mut [Entry]) -> Spread
        requires { IndexReady (mark_of self.edition) self.edition.width self.bytes.now (axes_of self.dim) records entries.old }
        ensures { Indexed (mark_of self.entry.edition) self.entry.edition.width self.entry.bytes.now (axes_of self.entry.dim) entries.new result }
    {
        let at = entries.len() - entries.len() / 10;
        let stride = (records - 1) / at + 1;
        let coarse = Run {
            at: 0,
            entries: (records - 1) / stride + 1,
            first: 0,
            stride,
        };
        self.fill(entries, Entry::FRONT, coarse);
        let fine = self.draw_fine(records, entries, coarse, at, 0);
        Spread { coarse, fine }
    }

    // The same index, its fine entries drawn anew where a record has left the first three quarters of them.
    pub fn index_about(
        self,
        records: usize,
        entries: &mut [Entry],
        spread: Spread,
        number: usize,
    ) -> Spread
        requires { AboutReady (mark_of self.edition) self.edition.width self.bytes.now (axes_of self.dim) records entries.old spread number }
        ensures { Indexed (mark_of self.entry.edition) self.entry.edition.width self.entry.bytes.now (axes_of self.entry.dim) entries.new result }
    {
        let Spread { coarse, fine } = spread;
        let reach = (entries.len() - fine.at) / 4 * 3;
        if fine.first <= number && number - fine.first < reach {
            return spread;
        }
        let fine = self.draw_fine(records, entries, coarse, fine.at, number);
        Spread { coarse, fine }
    }

    // The record whose leaf's part of the line holds a place, by entries of which the first is no later: in a logarithm of steps among
    // them, and a walk of less than a stride.
    fn held_by(self, index: Index, run: Run, place: Ahead) -> Sought
        requires { RunReady (mark_of self.edition) self.edition.width self.bytes.now (axes_of self.dim) index.entries.now run place }
        ensures { HeldIs (mark_of self.entry.edition) self.entry.edition.width self.entry.bytes.now (axes_of self.entry.dim) place result }
    {
        let at = index.nearest(run, place);
        let entry = index.entries[at];
        let ahead = place.beyond(entry.place, self.stretch());
        let number = run.first + (at - run.at) * run.stride;
        self.seek(number, entry.offset, ahead)
    }

    // Finds a cell, given by where it stands on the line.
    pub fn find(self, index: Index, cell: Position) -> Found
        requires { FindReady (mark_of self.edition) self.edition.width self.bytes.now (axes_of self.dim) index.entries.now index.spread cell }
        ensures { FoundIs (mark_of self.entry.edition) self.entry.edition.width self.entry.bytes.now (axes_of self.entry.dim) cell result }
    {
        let place = Ahead {
            stretches: cell.root,
            part: cell.start,
        };
        let sought = self.held_by(index, index.run_for(place), place);
        Found {
            kind: kind_of(self.part(sought.depth), cell.size),
            sought,
        }
    }
}
