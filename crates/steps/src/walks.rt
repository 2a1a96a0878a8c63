// A whole path down from a root, and a whole path up from a code: the entries go by value, and are written once.
ghost use Rattle.std.specs.Prelude.{◌≡◌, ◌≤◌, ◌++◌, length, drop};
ghost use Rattle.dimension.specs.Sizes.{axes_of, code_length};
ghost use Rattle.bisection.specs.Codes.{code_of, dimension_of, depth_of};
ghost use Rattle.steps.specs.Descents.{CodeReady};
ghost use Rattle.steps.specs.Ascents.{PathStands};

use dimension::Dim;
use entries::code::Code;
use fours::{Four, words};

// Writes the code of a good root and a good path: an orthant at each new box, and the entries at the end.
pub fn write_code(dim: Dim, root: &[u8], path: &[u8], code: &mut [u8])
    requires { CodeReady (axes_of dim) root.now path.now code.old }
    ensures { code.new ≡ code_of root.now path.now ++ drop (code_length (axes_of dim) (length path.now)) code.old }
{
    let axes = dim.axes();
    code[0] = (axes % 256) as u8;
    code[1] = (path.len() % 256) as u8;
    let mut entries = fours::entries_of(root, 0, axes);
    let mut k = axes;
    let mut at = 2 + axes;
    for step in path {
        entries = fours::step(entries, k - 1, *step);
        at = crate::put_box(entries, k, code, at);
        k = crate::place_after(axes, k);
    }
    fours::write(entries, axes, code, 2);
}

// Writes the root and the path of a code that passes: the steps are taken back, the deepest first, and the root is what is left.
pub fn write_path(code: &Code, root: &mut [u8], path: &mut [u8])
    requires { (dimension_of code.now ≤ length root.old) × (depth_of code.now ≤ length path.old) }
    ensures { PathStands code.now (dimension_of code.now) (depth_of code.now) root.old path.old root.new path.new }
{
    let bytes = code.bytes();
    let dim = code.dim();
    let axes = dim.axes();
    let depth = code.depth();
    let mut entries = words::word_in(bytes, axes);
    let mut k = dim.split_place(depth);
    let mut boxes = dim.box_depth(depth);
    for t in (0..depth).rev() {
        boxes = crate::boxes_above(boxes, k, axes);
        k = crate::place_above(k, axes);
        let own = crate::own_of(bytes, axes, boxes);
        let back = words::unstep(entries, k - 1, own);
        entries = back.before;
        path[t] = back.step;
    }
    fours::write(Four::from(entries), axes, root, 0);
}
