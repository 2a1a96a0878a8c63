// The listing of a sheet as text. A pure function on slices: the program sheet_list reads, calls it, and writes.
#![tactic(auto)]

mod text; // text.rt: bytes, numbers and hex put into a lent buffer

ghost use Rattle.std.specs.Prelude.{◌≡◌, ◌+◌, ◌*◌, ◌≤◌, ◌<◌, length, take};
ghost use Rattle.bisection.specs.Numbers.{number_of};
ghost use Rattle.sheets.specs.Sheets.{GoodSheet};
ghost use Rattle.sheets.specs.Steps.{mark_of};
ghost use Rattle.listing.specs.Texts.{sheet_limit, refused_text, Lists};
ghost use Rattle.common.specs.Putting.{Puts};
ghost use Rattle.listing.specs.Leaves.{PutsLeaves, PutsGood, RoomFor};

use bisection::{Refusal, Refused};
use sheets::{Edition, MARK_LENGTH};

// The most bytes of a sheet that is listed.
pub const SHEET_LIMIT: usize = 65536;

// Room for the output of every sheet that is listed: a leaf's line is at most twice its record, and 32 bytes hold
// the other lines.
pub const TEXT_ROOM: usize = 2 * SHEET_LIMIT + 32;

// The line of a refused sheet.
#[tactic(auto, using(crate::specs::Lines::byte_short, crate::specs::Lines::offset_short))]
fn put_refused(out: &mut [u8], refused: Refused) -> usize
    requires { (refused.offset ≤ sheet_limit) × (32 ≤ length out.old) }
    ensures { Puts 0 (refused_text (number_of refused.refusal) refused.offset) out.old result out.new × (result ≤ 32) }
{
    let at = text::put(out, 0, b"refused ");
    let at = text::put_decimal(out, at, usize::from(u8::from(refused.refusal)));
    let at = text::put(out, at, b" at ");
    let at = text::put_decimal(out, at, refused.offset);
    text::put(out, at, b"\n")
}

// A line for each record of a good sheet.
fn put_leaves(edition: Edition, out: &mut [u8], from: usize, sheet: &[u8], records: usize) -> usize
    requires { GoodSheet (mark_of edition) edition.width sheet.now records × RoomFor edition.width sheet.now from out.old }
    ensures { PutsLeaves (mark_of edition) edition.width sheet.now records from out.old result out.new }
{
    let mut at = from;
    let mut rest = sheet;
    for number in 0..records {
        let parts = sheets::record_parts(edition, rest);
        at = text::put_leaf(
            out,
            at,
            number,
            &rest[MARK_LENGTH..MARK_LENGTH + parts.code],
        );
        rest = &rest[parts.whole..];
    }
    at
}

// The listing of a good sheet.
fn put_good(edition: Edition, out: &mut [u8], sheet: &[u8], records: usize) -> usize
    requires { GoodSheet (mark_of edition) edition.width sheet.now records × RoomFor edition.width sheet.now 32 out.old }
    ensures { PutsGood (mark_of edition) edition.width sheet.now records out.old result out.new }
{
    let first = sheets::record_parts(edition, sheet);
    let at = text::put_line(out, 0, b"dim ", first.dim.axes());
    let at = put_leaves(edition, out, at, sheet, records);
    text::put_line(out, at, b"leaves ", records)
}

// The whole output for a sheet, and its length.
pub fn list_sheet(sheet: &[u8], out: &mut [u8; TEXT_ROOM]) -> usize
    ensures lists { Lists sheet.now out.old result out.new }
    ensures upper_bound { (result ≤ length out.new) × (result ≡ length (take result out.new)) }
{
    if SHEET_LIMIT < sheet.len() {
        return put_refused(out, Refusal::Large.into());
    }
    match sheets::sheet_check(sheet) {
        Ok(records) => put_good(sheets::first_edition(), out, sheet, records),
        Err(refused) => put_refused(out, refused),
    }
}
