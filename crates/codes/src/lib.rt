// The code layer: check, path to code, code to path, vertices, child, parent. Each entry takes any bytes, numbers
// and lent buffers and tests its own input; an early `return` for each refusal stands in document 01's order, and
// nothing is written before the last refusal is past. No entry has a requires.
#![tactic(auto)]

ghost use Rattle.std.specs.Prelude.{◌≡◌, ◌≤◌, length};
ghost use Rattle.bisection.specs.Numbers.{refusal_in};
ghost use Rattle.bisection.specs.Refusals.{code_refusal};
ghost use Rattle.codes.specs.Forms.{written, path_written};
ghost use Rattle.codes.specs.Fronts.{front_depth, HeadIs, Headed, inner_refusal, ChecksAs};
ghost use Rattle.codes.specs.Outcomes.{PathToCode, CodeToPath, Vertices, Child, Parent};

use bisection::{DONE, Refusal};
use dimension::Dim;
use entries::check;
pub use entries::code::Code;
use fours::words;
use steps::walks;

// What the head at the front of bytes says: the dimension and the length of the code that begins with it.
#[derive(Clone, Copy)]
pub struct Head {
    pub dim: Dim,
    pub length: usize,
}

// How many bytes a root and a path have.
#[derive(Clone, Copy)]
pub struct Lengths {
    pub axes: usize,
    pub depth: usize,
}

// The answer of an entry that writes one buffer, for a C program: how many bytes stand at its front.
#[repr(C)]
#[derive(Clone, Copy)]
pub struct Written {
    pub refusal: u8,
    pub length: usize,
}

impl From<Result<usize, Refusal>> for Written {
    ghost from_gives = { λ answer form. form ≡ written answer };

    fn from(answer: Result<usize, Refusal>) -> Written {
        match answer {
            Ok(length) => Written {
                refusal: DONE,
                length,
            },
            Err(refusal) => Written {
                refusal: refusal.into(),
                length: 0,
            },
        }
    }
}

// The same of code to path: how many bytes stand at the front of each buffer.
#[repr(C)]
#[derive(Clone, Copy)]
pub struct PathWritten {
    pub refusal: u8,
    pub axes: usize,
    pub depth: usize,
}

impl From<Result<Lengths, Refusal>> for PathWritten {
    ghost from_gives = { λ answer form. form ≡ path_written answer };

    fn from(answer: Result<Lengths, Refusal>) -> PathWritten {
        match answer {
            Ok(Lengths { axes, depth }) => PathWritten {
                refusal: DONE,
                axes,
                depth,
            },
            Err(refusal) => PathWritten {
                refusal: refusal.into(),
                axes: 0,
                depth: 0,
            },
        }
    }
}

// The head of the code at the front of bytes.
pub fn code_head(bytes: &[u8]) -> Result<Head, Refusal>
    requires { 2 ≤ length bytes.now }
    ensures { HeadIs bytes.now result }
{
    let depth = usize::from(bytes[1]);
    let Some(dim) = Dim::of(usize::from(bytes[0])) else {
        return Err(Refusal::Dimension);
    };
    if dim.greatest_depth() < depth {
        return Err(Refusal::Depth);
    }
    Ok(Head {
        dim,
        length: dim.code_length(depth),
    })
}

// The depth that the head at the front of bytes gives.
pub fn code_depth(bytes: &[u8]) -> usize
    requires { 2 ≤ length bytes.now }
    ensures { result ≡ front_depth bytes.now }
{
    usize::from(bytes[1])
}

// The refusal 4, 5 or 6 of a code whose head passes and gives it its length.
pub fn code_body(code: &[u8]) -> Result<(), Refusal>
    requires { Headed code.now }
    ensures { refusal_in result ≡ inner_refusal code.now }
{
    let code = &*code; // lent on anew, it comes in registers
    let d = usize::from(code[0]);
    let entries = words::word_in(code, d);
    if !check::permuted(entries, d) {
        return Err(Refusal::Permutation);
    }
    if !check::orthants_fit(code, d) {
        return Err(Refusal::Orthant);
    }
    let k = check::split_of(code, d);
    if !check::signs_by(entries, k, check::own_byte(code, d)) {
        return Err(Refusal::Sign);
    }
    Ok(())
}

// The check of a code.
pub fn code_check(code: &[u8]) -> Result<(), Refusal>
    ensures { refusal_in result ≡ code_refusal code.now }
{
    if code.len() < 2 {
        return Err(Refusal::Length);
    }
    let head = code_head(code)?;
    if code.len() != head.length {
        return Err(Refusal::Length);
    }
    code_body(code)
}

// Bytes as a code that passes.
pub fn checked(bytes: &[u8]) -> Result<Code, Refusal>
    ensures { ChecksAs bytes.now result }
{
    code_check(bytes)?;
    Ok(Code::known(bytes))
}

// The code of a root and a path: its length.
pub fn path_to_code(root: &[u8], path: &[u8], code: &mut [u8]) -> Result<usize, Refusal>
    ensures { PathToCode root.now path.now code.old (written result) code.new }
{
    let Some(dim) = Dim::of(root.len()) else {
        return Err(Refusal::Dimension);
    };
    if dim.greatest_depth() < path.len() {
        return Err(Refusal::Depth);
    }
    if !check::is_root(root) {
        return Err(Refusal::Permutation);
    }
    if !check::is_path(path) {
        return Err(Refusal::Step);
    }
    let length = dim.code_length(path.len());
    if code.len() < length {
        return Err(Refusal::Short);
    }
    walks::write_code(dim, root, path, code);
    Ok(length)
}

// The root and the path whose code it is.
pub fn code_to_path(code: &[u8], root: &mut [u8], path: &mut [u8]) -> Result<Lengths, Refusal>
    ensures { CodeToPath code.now root.old path.old (path_written result) root.new path.new }
{
    let code = checked(code)?;
    let axes = code.axes();
    let depth = code.depth();
    if root.len() < axes || path.len() < depth {
        return Err(Refusal::Short);
    }
    walks::write_path(&code, root, path);
    Ok(Lengths { axes, depth })
}

// The vertices of a code's cell in vertex order, d coordinates each, two bytes a coordinate, the low byte first.
pub fn vertices(code: &[u8], points: &mut [u8]) -> Result<usize, Refusal>
    ensures { Vertices code.now points.old (written result) points.new }
{
    let code = checked(code)?;
    let length = code.dim().points_length();
    if points.len() < length {
        return Err(Refusal::Short);
    }
    corners::write_cell(&code, points);
    Ok(length)
}

// The child of a code's cell, child 0 or 1: the code of the path with one step more.
pub fn child(code: &[u8], which: u8, out: &mut [u8]) -> Result<usize, Refusal>
    ensures { Child code.now which out.old (written result) out.new }
{
    let code = checked(code)?;
    if 1 < which {
        return Err(Refusal::Step);
    }
    let dim = code.dim();
    let depth = code.depth();
    if dim.greatest_depth() <= depth {
        return Err(Refusal::Deepest);
    }
    let length = dim.code_length(depth + 1);
    if out.len() < length {
        return Err(Refusal::Short);
    }
    steps::write_child(&code, which, out);
    Ok(length)
}

// The parent of a code's cell: the code of the path without its last step.
pub fn parent(code: &[u8], out: &mut [u8]) -> Result<usize, Refusal>
    ensures { Parent code.now out.old (written result) out.new }
{
    let code = checked(code)?;
    let depth = code.depth();
    if depth == 0 {
        return Err(Refusal::Root);
    }
    let dim = code.dim();
    let length = dim.code_length(depth - 1);
    if out.len() < length {
        return Err(Refusal::Short);
    }
    steps::write_parent(&code, out);
    Ok(length)
}
