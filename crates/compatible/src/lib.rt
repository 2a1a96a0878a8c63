// The compatibility test of a sheet: one look at the cell across a facet, for each leaf that is child 0 and each of its facets but facet 0.
// What a look tells stands in `is_matched`; the walk over leaves and facets knows only whether a facet passes.
#![tactic(auto)]

ghost use Rattle.std.specs.Prelude.{◌≡◌, ◌+◌, ◌^◌, ◌≤◌, ◌<◌};
ghost use Rattle.dimension.specs.Sizes.{axes_of};
ghost use Rattle.sheets.specs.Sheets.{sheet_mark, sample_width};
ghost use Rattle.sheets.specs.Steps.{mark_of};
ghost use Rattle.finding.specs.Opened.{Checked};
ghost use Rattle.compatible.specs.Compatible.{CompatibleIs};
ghost use Rattle.compatible.specs.Forms.{compatible_answer};
ghost use Rattle.compatible.specs.Looks.{LookReady, LookIs};
ghost use Rattle.compatible.specs.Steps.{IsSecond, NextStart};
ghost use Rattle.compatible.specs.FacetLaws.{FacetReady, FacetIs};
ghost use Rattle.compatible.specs.Walking.{LeafReady, LeafHolds, RecordReady, RecordHolds, SheetReady, SheetHolds};

use bisection::{DONE, Refused};
use codes::Code;
use dimension::Dim;
use finding::opened::{self, Opened};
use finding::{Entry, Index, Kind, Sheet, Spread};

// The answer for a C program: where a refused record begins; 1 for yes, 0 for no.
#[repr(C)]
#[derive(Clone, Copy)]
pub struct CompatibleAnswer {
    pub refusal: u8,
    pub compatible: u8,
    pub offset: usize,
}

impl From<Result<bool, Refused>> for CompatibleAnswer {
    ghost from_gives = { λ answer form. form ≡ compatible_answer answer };

    fn from(answer: Result<bool, Refused>) -> CompatibleAnswer {
        match answer {
            Ok(yes) => CompatibleAnswer {
                refusal: DONE,
                compatible: u8::from(yes),
                offset: 0,
            },
            Err(Refused { refusal, offset }) => CompatibleAnswer {
                refusal: refusal.into(),
                compatible: 0,
                offset,
            },
        }
    }
}

// How many entries the index of a sheet has: 240 KiB of the stack.
const ENTRIES: usize = 10240;

// Whether a facet passes, by one look at the cell across: the cell is present, a leaf or split; or its parent is a leaf, and its new vertex,
// which stands at a place, is its newest one.
fn is_matched(sheet: Sheet, index: Index, code: &[u8], place: usize) -> bool
    requires { LookReady (mark_of sheet.edition) sheet.edition.width sheet.bytes.now (axes_of sheet.dim) index.entries.now index.spread code.now }
    ensures { LookIs (mark_of sheet.entry.edition) sheet.entry.edition.width sheet.entry.bytes.now (axes_of sheet.entry.dim) code.now place result }
{
    let found = sheet.find(index, positions::position_of(&Code::known(code)));
    match found.kind {
        Kind::Leaf | Kind::Split => true,
        Kind::Inside => {
            found.sought.depth + 1 == codes::code_depth(code)
                && place == sheet.dim.split_place(found.sought.depth)
        }
    }
}

// Whether one facet of a leaf passes: it lies in a face of the cube, or the cell across is matched.
fn facet_holds(sheet: Sheet, index: Index, code: &[u8], facet: u8) -> bool
    requires { FacetReady (mark_of sheet.edition) sheet.edition.width sheet.bytes.now (axes_of sheet.dim) index.entries.now index.spread code.now facet }
    ensures { FacetIs (mark_of sheet.entry.edition) sheet.entry.edition.width sheet.entry.bytes.now (axes_of sheet.entry.dim) code.now facet result }
{
    let mut across = [0u8; Dim::LONGEST_CODE];
    let Ok(crossed) = crossing::cross_checked(&Code::known(code), facet, &mut across) else {
        return true;
    };
    is_matched(
        sheet,
        index,
        &across[..crossed.length],
        usize::from(crossed.place),
    )
}

// Whether each facet of a leaf passes that is to be looked at: its code, and whether it is child 1 of its parent. Looks from child 0 of each
// cell see all that is seen from child 1, and none is needed at facet 0.
fn leaf_holds(sheet: Sheet, index: Index, code: &[u8], second: bool) -> bool
    requires { (LeafReady (mark_of sheet.edition) sheet.edition.width sheet.bytes.now (axes_of sheet.dim) index.entries.now index.spread code.now) × IsSecond code.now second }
    ensures { LeafHolds (mark_of sheet.entry.edition) sheet.entry.edition.width sheet.entry.bytes.now (axes_of sheet.entry.dim) code.now result }
{
    if second {
        return true;
    }
    for facet in 1..=sheet.dim.axes() as u8 {
        if !facet_holds(sheet, index, code, facet) {
            return false;
        }
    }
    true
}

// A record that was read: how many bytes it has, and how long its leaf's part of the line is.
#[derive(Clone, Copy)]
pub struct Passed {
    pub length: usize,
    pub size: u64,
}

// The record at an offset, if those facets of its leaf pass, by where the leaf starts on its root's stretch: child 0 has the first half of
// its parent's part, child 1 the second, so its size's bit is set there.
fn record_holds(sheet: Sheet, index: Index, offset: usize, start: u64) -> Option<Passed>
    requires { RecordReady (mark_of sheet.edition) sheet.edition.width sheet.bytes.now (axes_of sheet.dim) index.entries.now index.spread offset start }
    ensures { RecordHolds (mark_of sheet.entry.edition) sheet.entry.edition.width sheet.entry.bytes.now (axes_of sheet.entry.dim) offset result }
{
    let depth = sheet.depth_at(offset);
    let size = sheet.part(depth);
    let at = offset + sheets::MARK_LENGTH;
    let code = &sheet.bytes[at..at + sheet.dim.code_length(depth)];
    if leaf_holds(sheet, index, code, start & size != 0) {
        Some(Passed {
            length: sheet.record_length(depth),
            size,
        })
    } else {
        None
    }
}

// Where the leaf after one starts on its root's stretch: behind it, or at the front of the next root's.
fn next_start(start: u64, size: u64, stretch: u64) -> u64
    requires { start + size < 2 ^ 64 }
    ensures { NextStart start size stretch result }
{
    let end = start + size;
    if end < stretch { end } else { 0 }
}

// The same of each leaf. The index is kept about the leaf at hand.
fn all_hold(sheet: Sheet, records: usize, entries: &mut [Entry], spread: Spread) -> bool
    requires { SheetReady (mark_of sheet.edition) sheet.edition.width sheet.bytes.now (axes_of sheet.dim) records entries.old spread }
    ensures { SheetHolds (mark_of sheet.entry.edition) sheet.entry.edition.width sheet.entry.bytes.now result }
{
    let stretch = sheet.stretch();
    let mut offset: usize = 0;
    let mut start: u64 = 0;
    let mut spread = spread;
    for number in 0..records {
        spread = sheet.index_about(records, entries, spread, number);
        let Some(passed) = record_holds(sheet, Index { entries, spread }, offset, start) else {
            return false;
        };
        offset += passed.length;
        start = next_start(start, passed.size, stretch);
    }
    true
}

// The same of a sheet of document 01's edition, with an index of its own.
fn leaves_compatible(bytes: &[u8], opened: Opened) -> bool
    requires { Checked bytes.now (axes_of opened.dim) opened.records }
    ensures { SheetHolds sheet_mark sample_width bytes.now result }
{
    let sheet = Sheet {
        edition: sheets::first_edition(),
        bytes,
        dim: opened.dim,
    };
    let mut entries = [Entry::FRONT; ENTRIES];
    let spread = sheet.index_of(opened.records, &mut entries);
    all_hold(sheet, opened.records, &mut entries, spread)
}

// The compatibility test.
pub fn compatible(sheet: &[u8]) -> Result<bool, Refused>
    ensures { CompatibleIs sheet.now (compatible_answer result) }
{
    let opened = opened::check_sheet(sheet)?;
    Ok(leaves_compatible(sheet, opened))
}
