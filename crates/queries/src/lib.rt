// Point queries: the leaf at a point and its weights, and the exact grey value and slope there. The whole sheet is checked first. No leaf is
// tested: the way down to the point gives a place on the line of all cells, and the leaf there is the one that the document asks for.
#![tactic(auto)]

ghost use Rattle.std.specs.Prelude.{◌≡◌, ◌≤◌};
ghost use Rattle.common.specs.Putting.{put};
ghost use Rattle.dimension.specs.Sizes.{axes_of};
ghost use Rattle.sheets.specs.Steps.{mark_of};
ghost use Rattle.points.specs.Points.{point_of};
ghost use Rattle.queries.specs.Forms.{leaf_answer};
ghost use Rattle.queries.specs.Choice.{ChoiceReady, StandsIs, ChosenIs};
ghost use Rattle.queries.specs.Queries.{LeafIs, ValueIs};
ghost use Rattle.queries.specs.Answers.{AskedIs, FirstReady, GreyIs};
ghost use Rattle.queries.specs.SlopeQueries.{SlopeIs};
ghost use Rattle.queries.specs.SlopeAnswers.{SlopesAt};
ghost use Rattle.queries.specs.Writing.{weight_bytes, WeightsReady};

use bisection::{DONE, Refusal, Refused};
use codes::Code;
use dimension::Dim;
use finding::{Ahead, Sheet, opened};
use slopes::Slopes;

// The leaf at a point: its record's number, and how many bytes of weights stand at the buffer's front.
#[derive(Clone, Copy)]
pub struct Leaf {
    pub number: usize,
    pub length: usize,
}

// The answer of a leaf query, for a C program: the leaf, or a refusal and its offset.
#[repr(C)]
#[derive(Clone, Copy)]
pub struct LeafAnswer {
    pub refusal: u8,
    pub offset: usize,
    pub number: usize,
    pub length: usize,
}

impl From<Result<Leaf, Refused>> for LeafAnswer {
    ghost from_gives = { λ leaf answer. answer ≡ leaf_answer leaf };

    fn from(leaf: Result<Leaf, Refused>) -> LeafAnswer {
        match leaf {
            Ok(leaf) => LeafAnswer {
                refusal: DONE,
                offset: 0,
                number: leaf.number,
                length: leaf.length,
            },
            Err(refused) => LeafAnswer {
                refusal: refused.refusal.into(),
                offset: refused.offset,
                number: 0,
                length: 0,
            },
        }
    }
}

// The record of the leaf at a point: its number, where it begins, how deep its leaf is, and the point's weights in the leaf's root, of
// the cube's side as their sum.
#[derive(Clone, Copy)]
pub struct Standing {
    pub number: usize,
    pub offset: usize,
    pub depth: usize,
    pub first: [u64; 5],
}

// The record that a query is answered from: its number, how deep its leaf is, where its samples stand, and the point's weights in
// that leaf, of the cube's side as their sum.
#[derive(Clone, Copy)]
pub struct Chosen {
    pub number: usize,
    pub depth: usize,
    pub samples: usize,
    pub weights: [u64; 5],
}

// The record of the first leaf in tree order whose closed cell contains the point: the one leaf on the way down to it.
pub fn first_leaf(sheet: Sheet, point: &[u8]) -> Standing
    requires { ChoiceReady (mark_of sheet.edition) sheet.edition.width sheet.bytes.now (axes_of sheet.dim) point.now }
    ensures { StandsIs (mark_of sheet.entry.edition) sheet.entry.edition.width sheet.entry.bytes.now (axes_of sheet.entry.dim) (point_of point.now) result }
{
    let way = ways::way_to(point, sheet.dim);
    let place = Ahead {
        stretches: way.root,
        part: way.position,
    };
    let sought = sheet.seek(0, 0, place);
    let first = way.weights;
    Standing {
        number: sought.number,
        offset: sought.offset,
        depth: sought.depth,
        first,
    }
}

// The same, with the point's weights in the leaf and where the samples stand.
pub fn record_at(sheet: Sheet, point: &[u8]) -> Chosen
    requires { ChoiceReady (mark_of sheet.edition) sheet.edition.width sheet.bytes.now (axes_of sheet.dim) point.now }
    ensures { ChosenIs (mark_of sheet.entry.edition) sheet.entry.edition.width sheet.entry.bytes.now (axes_of sheet.entry.dim) (point_of point.now) result }
{
    let standing = first_leaf(sheet, point);
    let first = standing.first;
    let there = ways::descend(first, sheet.dim, standing.depth);
    let weights = there.weights;
    let code = sheet.dim.code_length(standing.depth);
    Chosen {
        number: standing.number,
        depth: standing.depth,
        samples: standing.offset + (sheets::MARK_LENGTH + code),
        weights,
    }
}

// The front of each query: the whole sheet is checked, then the point.
fn asked<'a>(bytes: &'a [u8], point: &[u8]) -> Result<Sheet<'a>, Refused>
    ensures { AskedIs bytes.now point.now result }
{
    let opened = opened::check_sheet(bytes)?;
    if !ways::is_point(point, opened.dim) {
        return Err(Refusal::Point.into());
    }
    Ok(Sheet {
        edition: sheets::first_edition(),
        bytes,
        dim: opened.dim,
    })
}

// Writes the weights of the box's side, two bytes each, the low byte first: those of the cube's side, halved as often as the box was.
fn write_weights(weights: [u64; 5], dim: Dim, boxes: usize, out: &mut [u8])
    requires { WeightsReady (axes_of dim) boxes weights out.old }
    ensures { out.new ≡ put 0 (weight_bytes (axes_of dim) boxes weights) out.old }
{
    for n in 0..dim.axes() + 1 {
        let weight = (weights[n] >> boxes) as u16;
        out[2 * n..2 * n + 2].copy_from_slice(&weight.to_le_bytes());
    }
}

// The leaf at a point: its record's number, and its weights.
pub fn leaf_at(sheet: &[u8], point: &[u8], weights: &mut [u8]) -> Result<Leaf, Refused>
    ensures { LeafIs sheet.now point.now weights.old (leaf_answer result) weights.new }
{
    let sheet = asked(sheet, point)?;
    let length = 2 * (sheet.dim.axes() + 1);
    if weights.len() < length {
        return Err(Refusal::Short.into());
    }
    let chosen = record_at(sheet, point);
    let boxes = sheet.dim.box_depth(chosen.depth);
    let found = chosen.weights;
    write_weights(found, sheet.dim, boxes, weights);
    Ok(Leaf {
        number: chosen.number,
        length,
    })
}

// The grey value at a point of a good sheet.
fn grey_at(sheet: Sheet, point: &[u8]) -> f64
    requires { FirstReady sheet.edition sheet.bytes.now (axes_of sheet.dim) point.now }
    ensures { GreyIs sheet.entry.bytes.now (axes_of sheet.entry.dim) point.now result }
{
    let chosen = record_at(sheet, point);
    let width = sheet.edition.width;
    let start = chosen.samples;
    let end = start + sheets::samples_length_in(width, sheet.dim);
    let found = chosen.weights;
    greys::grey(&sheet.bytes[start..end], width, found, sheet.dim)
}

// The grey value at a point, exact.
pub fn value_at(sheet: &[u8], point: &[u8]) -> Result<f64, Refused>
    ensures { ValueIs sheet.now point.now result }
{
    let sheet = asked(sheet, point)?;
    Ok(grey_at(sheet, point))
}

// The slopes in the first leaf at a point of a good sheet, from its code and from its samples, which stand right behind the code.
fn slopes_at(sheet: Sheet, point: &[u8]) -> Slopes
    requires { ChoiceReady (mark_of sheet.edition) sheet.edition.width sheet.bytes.now (axes_of sheet.dim) point.now × (sheet.edition.width ≤ 3) }
    ensures { SlopesAt (mark_of sheet.entry.edition) sheet.entry.edition.width sheet.entry.bytes.now (axes_of sheet.entry.dim) point.now result }
{
    let width = sheet.edition.width;
    let leaf = first_leaf(sheet, point);
    let code = leaf.offset + sheets::MARK_LENGTH;
    let samples = code + sheet.dim.code_length(leaf.depth);
    let end = samples + sheets::samples_length_in(width, sheet.dim);
    let bytes = sheet.bytes;
    let code = Code::known(&bytes[code..samples]);
    slopes::in_cell(&code, &bytes[samples..end], width)
}

// The slope of the grey field at a point, exact.
pub fn slope_at(sheet: &[u8], point: &[u8]) -> Result<Slopes, Refused>
    ensures { SlopeIs sheet.now point.now result }
{
    let sheet = asked(sheet, point)?;
    Ok(slopes_at(sheet, point))
}
