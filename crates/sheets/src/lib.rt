// The sheet layer: records, and the check of a whole sheet. It knows a code by what the code layer says of it: its head, its body,
// and whether it is that of the next leaf. After a leaf the next one is known, so a good record is recognised by comparing its
// code with that of the next cell; only where they differ do the record's own tests run, to name the refusal.
#![tactic(auto)]

ghost use Rattle.std.specs.Prelude.{◌≡◌, false, suc, ◌*◌, ◌≤◌, length, MatchOption};
ghost use Rattle.dimension.specs.Sizes.{axes_of};
ghost use Rattle.bisection.specs.Numbers.{refusal_in};
ghost use Rattle.bisection.specs.Refusals.{done};
ghost use Rattle.sheets.specs.Forms.{sheet_answer};
ghost use Rattle.sheets.specs.Sheets.{is_marked, unmarked_refusal, record_refusal, SheetIs};
ghost use Rattle.sheets.specs.Steps.{mark_of, IsFirst, Marked, PartsAre, OpenIs, FitsIs, MoveReady, MoveIs};

use bisection::{DONE, Refusal, Refused};
use dimension::Dim;
use next::{Match, Next};

// How many bytes a mark has.
pub const MARK_LENGTH: usize = 2;

// An edition of sheets: the mark before each code, and how many bytes a sample has.
#[derive(Clone, Copy)]
pub struct Edition {
    pub mark: [u8; MARK_LENGTH],
    pub width: u8,
}

// The edition of document 01.
pub fn first_edition() -> Edition
    ensures { IsFirst result }
{
    Edition {
        mark: [0x43, 0x4C],
        width: 2,
    }
}

// The answer of the sheet check, for a C program: where a refused record begins, or the number of records.
#[repr(C)]
#[derive(Clone, Copy)]
pub struct SheetAnswer {
    pub refusal: u8,
    pub offset: usize,
    pub records: usize,
}

impl From<Result<usize, Refused>> for SheetAnswer {
    ghost from_gives = { λ answer form. form ≡ sheet_answer answer };

    fn from(answer: Result<usize, Refused>) -> SheetAnswer {
        match answer {
            Ok(records) => SheetAnswer {
                refusal: DONE,
                offset: 0,
                records,
            },
            Err(Refused { refusal, offset }) => SheetAnswer {
                refusal: refusal.into(),
                offset,
                records: 0,
            },
        }
    }
}

// What has been read: how far, how many records, and the next cell with its root's number. The running position on the line is
// the root's number and the next cell's path, in parts of its size.
#[derive(Clone, Copy)]
struct State {
    offset: usize,
    records: usize,
    dim: Dim,
    root: usize,
    next: Next,
}

// A record's dimension, and how many bytes its code has, and the whole record.
#[derive(Clone, Copy)]
pub struct RecordParts {
    pub dim: Dim,
    pub code: usize,
    pub whole: usize,
}

// What stands behind the mark, where the bytes begin with it and two more bytes follow.
#[tactic(auto, using(crate::specs::StepLaws::marked_is, crate::specs::StepLaws::part_marked))]
fn behind_mark(edition: Edition, bytes: &[u8]) -> Option<&[u8]>
    ensures { MatchOption result (is_marked (mark_of edition) bytes.now ≡ false) (λ rest. Marked (mark_of edition) bytes.now rest.now) }
{
    let [first, second, rest @ ..] = bytes else {
        return None;
    };
    if rest.len() < 2 || *first != edition.mark[0] || *second != edition.mark[1] {
        return None;
    }
    Some(rest)
}

// How many bytes the samples of a record have, in so many axes.
pub fn samples_length(width: u8, dimension: u8) -> usize
    ensures { (result ≡ width * suc dimension) × (result ≤ 65536) }
{
    usize::from(width) * (usize::from(dimension) + 1)
}

// The same in a dimension that is built.
pub fn samples_length_in(width: u8, dim: Dim) -> usize
    ensures { (result ≡ width * suc (axes_of dim)) × (result ≤ 65536) }
{
    samples_length(width, dim.axes() as u8)
}

// The tests behind the mark, in document 01's order.
#[tactic(auto, using(crate::specs::StepLaws::body_head))]
fn body_check(width: u8, bytes: &[u8]) -> Result<(), Refusal>
    requires { 2 ≤ length bytes.now }
    ensures { refusal_in result ≡ unmarked_refusal width bytes.now }
{
    let head = codes::code_head(bytes)?;
    let Some(code) = bytes.get(..head.length) else {
        return Err(Refusal::Record);
    };
    codes::code_body(code)?;
    if bytes.len() < head.length + samples_length_in(width, head.dim) {
        return Err(Refusal::Record);
    }
    Ok(())
}

// A record's own tests.
#[tactic(auto, using(crate::specs::StepLaws::record_unmarked, crate::specs::StepLaws::record_marked))]
fn record_check(edition: Edition, bytes: &[u8]) -> Result<(), Refusal>
    ensures { refusal_in result ≡ record_refusal (mark_of edition) edition.width bytes.now }
{
    let Some(rest) = behind_mark(edition, bytes) else {
        return Err(Refusal::Record);
    };
    body_check(edition.width, rest)
}

// The parts of a record that passes its own tests.
pub fn record_parts(edition: Edition, bytes: &[u8]) -> RecordParts
    requires { record_refusal (mark_of edition) edition.width bytes.now ≡ done }
    ensures { PartsAre (mark_of edition) edition.width bytes.now result }
{
    let head = codes::code_head(&bytes[MARK_LENGTH..]).unwrap();
    RecordParts {
        dim: head.dim,
        code: head.length,
        whole: MARK_LENGTH + (head.length + samples_length_in(edition.width, head.dim)),
    }
}

// The state before the first record: at the first root of the dimension that the record names. Or why there is no such record.
#[tactic(auto, using(crate::specs::StepLaws::open_unmarked))]
fn opened(edition: Edition, sheet: &[u8]) -> Result<State, Refusal>
    ensures { OpenIs (mark_of edition) sheet.now result }
{
    if sheet.is_empty() {
        return Err(Refusal::Leaf);
    }
    let Some(rest) = behind_mark(edition, sheet) else {
        return Err(Refusal::Record);
    };
    let dim = codes::code_head(rest)?.dim;
    Ok(State {
        offset: 0,
        records: 0,
        dim,
        root: 0,
        next: next::first(dim, 0),
    })
}

// What the code matches, where the bytes begin with the record of the next leaf.
fn fits(edition: Edition, state: State, bytes: &[u8]) -> Option<Match>
    ensures { FitsIs (mark_of edition) edition.width state bytes.now result }
{
    if state.root == state.dim.roots() {
        return None;
    }
    let rest = behind_mark(edition, bytes)?;
    let code = next::matches(state.next, state.dim, rest)?;
    if rest.len() < code.length + samples_length_in(edition.width, state.dim) {
        return None;
    }
    Some(code)
}

// The state after a record that fits: the next cell is the one after its leaf, or the next root.
fn moved(edition: Edition, state: State, found: Match) -> State
    requires { MoveReady edition.width state found }
    ensures { MoveIs edition.width state found result }
{
    let dim = state.dim;
    let samples = samples_length_in(edition.width, dim);
    let offset = state.offset + (MARK_LENGTH + (found.length + samples));
    let records = state.records + 1;
    match next::after(state.next, dim, found.depth, found.boxes) {
        Some(next) => State {
            offset,
            records,
            next,
            ..state
        },
        None => {
            let root = state.root + 1;
            State {
                offset,
                records,
                root,
                next: next::first(dim, root),
                ..state
            }
        }
    }
}

// The number of records of a good sheet, or the first refusal in reading order.
pub fn sheet_check(sheet: &[u8]) -> Result<usize, Refused>
    ensures { SheetIs sheet.now (sheet_answer result) }
{
    let edition = first_edition();
    let mut state = opened(edition, sheet)?;
    // a `while`: how far a step goes is the record's own length
    while state.offset < sheet.len() {
        let offset = state.offset;
        let bytes = &sheet[offset..];
        let Some(found) = fits(edition, state, bytes) else {
            let refusal = record_check(edition, bytes).err().unwrap_or(Refusal::Leaf);
            return Err(Refused { refusal, offset });
        };
        state = moved(edition, state, found);
    }
    if state.root != state.dim.roots() {
        return Err(Refused {
            refusal: Refusal::Leaf,
            offset: state.offset,
        });
    }
    Ok(state.records)
}
