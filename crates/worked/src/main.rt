// The worked cases of document 01 that stand outside its proved set, some for each slip that it names, and slopes in leaves of every
// level: a line for each, which says the case and what the entry answers.
#![tactic(auto)]

mod ask; // ask.rt: each entry, what it is asked and what it answers
mod linear; // linear.rt: sheets with the samples of one linear function
mod say; // say.rt: what the program writes, part by part

use say::Out;
use std::fmt;

// The sheet of "The listing program": both roots of dimension 2.
const SHEET: [u8; 24] = *b"CL\x02\0\x01\x02\x0A\0\x14\0\x32\0CL\x02\0\x02\x01\x0A\0\x1E\0\x32\0";

// That of examples/corner.sheet: beside the whole root [+2 +1] stands a cell of depth 2.
const CORNER: [u8; 50] =
    *b"CL\x02\x02\x01\x02\0\x0A\0\x28\0\x3C\0CL\x02\x02\x81\x02\x01\x14\0\x28\0\x3C\0\
    CL\x02\x01\x02\x81\x14\0\x32\0\x3C\0CL\x02\0\x02\x01\x0A\0\x1E\0\x32\0";

// One step more than dimension 2 has.
const STEPS: [u8; 25] =
    *b"\0\x01\0\x01\0\x01\0\x01\0\x01\0\x01\0\x01\0\x01\0\x01\0\x01\0\x01\0\x01\0";

// "An empty sheet: refusal 14 at 0", the sheets of "The listing program", and one that is not compatible.
fn whole_sheets(to: &mut Out) -> fmt::Result {
    ask::sheet(to, "empty sheet", b"")?;
    ask::sheet(to, "sheet of 24 bytes", &SHEET)?;
    ask::sheet(to, "its first 12 bytes", &SHEET[..12])?;
    ask::compatible(to, "compatible, of 24 bytes", &SHEET)?;
    ask::compatible(to, "compatible, of its first 12 bytes", &SHEET[..12])?;
    ask::compatible(to, "compatible, of another sheet", &CORNER)
}

// "Dimension 2 at depth 24 is good, 25 is refusal 2; child of depth 24 is refusal 10."
fn depths(to: &mut Out) -> fmt::Result {
    ask::checked(to, "depth 24", b"\x02\x18\x01\x02\0\0\0\0\0\0\0\0\0\0\0\0")?;
    ask::checked(to, "depth 25", b"\x02\x19\x01\x02\0\0\0\0\0\0\0\0\0\0\0\0")?;
    ask::coded(to, "depth 24", b"\x01\x02", &STEPS[..24])?;
    ask::coded(to, "depth 25", b"\x01\x02", &STEPS)?;
    ask::child(to, "depth 23", b"\x02\x17\x01\x02\0\0\0\0\0\0\0\0\0\0\0", 1)?;
    ask::child(
        to,
        "depth 24",
        b"\x02\x18\x01\x02\0\0\0\0\0\0\0\0\0\0\0\0",
        0,
    )?;
    ask::child(
        to,
        "depth 24",
        b"\x02\x18\x01\x02\0\0\0\0\0\0\0\0\0\0\0\0",
        1,
    )
}

// "Coordinate 4096 is good, 4097 is refusal 12."
fn coordinates(to: &mut Out) -> fmt::Result {
    ask::leaf(to, &SHEET, &[0x00, 0x10, 0x00, 0x10])?;
    ask::leaf(to, &SHEET, &[0x01, 0x10, 0x00, 0x10])?;
    ask::leaf(to, &SHEET, &[0x00, 0x10, 0x01, 0x10])?;
    ask::value(to, &SHEET, &[0x00, 0x10, 0x00, 0x10])?;
    ask::value(to, &SHEET, &[0x01, 0x10, 0x00, 0x10])?;
    ask::value(to, &SHEET, &[0x00, 0x10, 0x01, 0x10])
}

// Request No. 1: "the two-root sheet of document 01 at (1024,512) has slopes 10/4096 and 30/4096". In the other root both are 20/4096.
// Coordinate 4097 is refused.
fn slopes_in_roots(to: &mut Out, sheet: &[u8]) -> fmt::Result {
    ask::slope(to, "sheet of 24 bytes", sheet, b"\0\x04\0\x02")?;
    ask::slope(to, "sheet of 24 bytes", sheet, b"\0\x02\0\x04")?;
    ask::slope(to, "sheet of 24 bytes", sheet, b"\x01\x10\0\x02")
}

// At depth 2, where the box's side is 2048: 30/2048 and 20/2048, then -20/2048 and 20/2048. At depth 1 the second entry is past the
// split place: -50/4096 and 30/4096.
fn slopes_in_corner(to: &mut Out, sheet: &[u8]) -> fmt::Result {
    ask::slope(to, "dimension 2, depth 2", sheet, b"\0\x04\0\x02")?;
    ask::slope(to, "dimension 2, depth 2", sheet, b"\0\x0C\0\x02")?;
    ask::slope(to, "dimension 2, depth 1", sheet, b"\0\x0E\0\x08")
}

// Leaves of every level, all with -300/4096, 200/4096 and 52/4096.
fn slopes_in_three(to: &mut Out, sheet: &[u8]) -> fmt::Result {
    ask::slope(to, "dimension 3, depth 1", sheet, b"\0\x0A\0\x06\0\x02")?;
    ask::slope(to, "dimension 3, depth 2", sheet, b"\0\x0E\0\x08\0\x04")?;
    ask::slope(to, "dimension 3, depth 2", sheet, b"\0\x0E\0\x0C\0\x08")?;
    ask::slope(to, "dimension 3, depth 0", sheet, b"\0\x04\0\x08\0\x0C")
}

// The same with -300/4096, 200/4096, +0.0 and -64/4096.
fn slopes_in_four(to: &mut Out, sheet: &[u8]) -> fmt::Result {
    ask::slope(
        to,
        "dimension 4, depth 1",
        sheet,
        b"\0\x07\0\x05\0\x03\0\x01",
    )?;
    ask::slope(
        to,
        "dimension 4, depth 2",
        sheet,
        b"\0\x0F\0\x06\0\x04\0\x02",
    )?;
    ask::slope(
        to,
        "dimension 4, depth 3",
        sheet,
        b"\0\x0F\0\x0E\0\x05\0\x03",
    )?;
    ask::slope(
        to,
        "dimension 4, depth 3",
        sheet,
        b"\0\x0F\0\x0E\0\x0D\0\x05",
    )?;
    ask::slope(
        to,
        "dimension 4, depth 0",
        sheet,
        b"\0\x02\0\x04\0\x06\0\x08",
    )
}

fn slopes(to: &mut Out) -> fmt::Result {
    slopes_in_roots(to, &SHEET)?;
    slopes_in_corner(to, &CORNER)?;
    slopes_in_three(to, &linear::THREE)?;
    slopes_in_four(to, &linear::FOUR)
}

// "The listing program".
fn listings(to: &mut Out) -> fmt::Result {
    ask::listed(to, &SHEET)?;
    ask::listed(to, &SHEET[..12])?;
    let large = [0u8; listing::SHEET_LIMIT + 1];
    ask::listed(to, &large[..listing::SHEET_LIMIT])?;
    ask::listed(to, &large)
}

// "Slips that look right", the first two: the same place, and all signed permutations.
fn first_slips(to: &mut Out) -> fmt::Result {
    ask::crossed(to, "slip 1, same place", b"\x02\x01\x01\x02", 0)?;
    ask::crossed(to, "slip 1, same place", b"\x02\x01\x02\x81", 1)?;
    ask::checked(to, "slip 2, any signs", b"\x02\x01\x81\x02")?;
    ask::checked(to, "slip 2, any signs", b"\x02\x00\x01\x82")?;
    ask::checked(to, "slip 2, any signs", b"\x02\x01\x01\x82")
}

// The other three: all entries turned, a low place deep inside, and a crossing that leaves more than the last box.
fn other_slips(to: &mut Out) -> fmt::Result {
    ask::coded(to, "slip 3, all turned", b"\x01\x02\x03", b"\0\x01")?;
    ask::coded(to, "slip 3, all turned", b"\x01\x02\x03\x04", b"\0\0\x01")?;
    ask::crossed(to, "slip 4, low place", b"\x02\x00\x01\x02", 0)?;
    ask::crossed(to, "slip 4, low place", b"\x02\x04\x01\x82\x01\x02", 0)?;
    ask::crossed(to, "slip 4, low place", b"\x02\x04\x01\x82\x01\x02", 2)?;
    ask::crossed(to, "slip 5, last box", b"\x02\x06\x02\x01\x01\0\0", 2)?;
    ask::crossed(
        to,
        "slip 5, last box",
        b"\x02\x18\x02\x01\x01\0\0\0\0\0\0\0\0\0\0\0",
        2,
    )
}

fn all_cases(to: &mut Out) -> fmt::Result {
    whole_sheets(to)?;
    depths(to)?;
    coordinates(to)?;
    slopes(to)?;
    listings(to)?;
    first_slips(to)?;
    other_slips(to)
}

// What cannot be written is left out: the program goes on, and ends with 0.
fn main(rt: HostRuntime) {
    let mut to = Out(rt.stdout());
    let _told = all_cases(&mut to);
}
