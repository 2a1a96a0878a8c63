// One step of the bisection on a code, entries from place 2 on, written to a lent buffer; and one step back.
#![tactic(auto)]

pub mod buffers; // buffers.rt: bytes in a lent buffer
pub mod walks; // walks.rt: a whole path down, a whole path up

ghost use Rattle.std.specs.Prelude.{◌≡◌, cond, eqb, suc, ◌+◌, ◌-◌, ◌≤◌, ◌<◌, length, take, drop, ◌++◌};
ghost use Rattle.dimension.specs.Sizes.{code_length};
ghost use Rattle.bisection.specs.Codes.{dimension_of, depth_of};
ghost use Rattle.bisection.specs.Theorems.CodePaths.{child_code, parent_code};
ghost use Rattle.entries.specs.Walks.{own_byte};
ghost use Rattle.steps.specs.Steps.{RoomForBox, BoxPut};
ghost use Rattle.steps.specs.Above.{place_above, BoxesReady, boxes_above};

use entries::code::Code;
use fours::{Four, words};

// The orthant after a step, which the entries give: one is put behind the others when the new level is 0, that is when k was 1.
// Answers where the next one goes.
pub fn put_box(e: Four, k: usize, code: &mut [u8], at: usize) -> usize
    requires { RoomForBox k at code.old }
    ensures { BoxPut e k at code.old code.new result }
{
    if k == 1 {
        code[at] = fours::own_of(e);
        at + 1
    } else {
        at
    }
}

// The split place one step deeper.
pub fn place_after(d: usize, k: usize) -> usize
    requires { 1 ≤ k }
    ensures { result ≡ cond (eqb k 1) d (k - 1) }
{
    if k == 1 { d } else { k - 1 }
}

// The split place one step up.
pub fn place_above(k: usize, axes: usize) -> usize
    requires { k ≤ 8 }
    ensures { result ≡ place_above k axes }
{
    if k == axes { 1 } else { k + 1 }
}

// How many boxes there are one step up, from those here.
pub fn boxes_above(boxes: usize, k: usize, axes: usize) -> usize
    requires { BoxesReady boxes k axes }
    ensures { result ≡ boxes_above boxes k axes }
{
    if k == axes { boxes - 1 } else { boxes }
}

// The byte of the own signs of the box, the last of the first so many orthants, 0 where there is none. It is read either way, which
// costs less than a branch.
pub fn own_of(code: &[u8], axes: usize, boxes: usize) -> u8
    requires { 2 + axes + boxes ≤ length code.now }
    ensures { result ≡ own_byte (take boxes (drop (2 + axes) code.now)) }
{
    let last = code[1 + axes + boxes];
    common::pick(boxes == 0, 0, last)
}

// Writes the child's code: a copy of the code with one more depth, the entries stepped, and the orthant that they give.
pub fn write_child(code: &Code, which: u8, out: &mut [u8])
    requires { code_length (dimension_of code.now) (suc (depth_of code.now)) ≤ length out.old }
    ensures { out.new ≡ child_code which code.now ++ drop (code_length (dimension_of code.now) (suc (depth_of code.now))) out.old }
{
    let bytes = code.bytes();
    let dim = code.dim();
    let axes = dim.axes();
    let k = dim.split_place(code.depth());
    let next = fours::step(fours::entries_of(bytes, 2, axes), k - 1, which);
    buffers::copy_front(bytes, bytes.len(), out);
    out[1] = bytes[1] + 1;
    fours::write(next, axes, out, 2);
    put_box(next, k, out, bytes.len());
}

// Writes the parent's code: the front of the code with the last step taken back. Its boxes are counted once, and give its own signs,
// its split place k and its length.
pub fn write_parent(code: &Code, out: &mut [u8])
    requires { (0 < depth_of code.now) × (code_length (dimension_of code.now) (depth_of code.now - 1) ≤ length out.old) }
    ensures { out.new ≡ parent_code code.now ++ drop (code_length (dimension_of code.now) (depth_of code.now - 1)) out.old }
{
    let bytes = code.bytes();
    let dim = code.dim();
    let axes = dim.axes();
    let depth = code.depth() - 1;
    let boxes = dim.box_depth(depth);
    let own = own_of(bytes, axes, boxes);
    let k = axes - (depth - axes * boxes);
    let back = words::unstep(words::word_in(bytes, axes), k - 1, own);
    buffers::copy_front(bytes, 2 + axes + boxes, out);
    out[1] = bytes[1] - 1;
    fours::write(Four::from(back.before), axes, out, 2);
}
