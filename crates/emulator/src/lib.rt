// The C side: one exported function for each entry, with the entry's own contract. include/reshmokhit.h declares them.
// A slice is a pointer and a length there; what is assumed of the pointers stands in the header.
#![tactic(auto)]

ghost use Rattle.std.specs.Prelude.{◌≡◌};
ghost use Rattle.bisection.specs.Refusals.{code_refusal};
ghost use Rattle.codes.specs.Outcomes.{PathToCode, CodeToPath, Vertices, Child, Parent};
ghost use Rattle.crossing.specs.Outcome.{Crosses};
ghost use Rattle.sheets.specs.Sheets.{SheetIs};
ghost use Rattle.queries.specs.Queries.{LeafIs, FlatValueIs};
ghost use Rattle.queries.specs.SlopeQueries.{FlatSlopeIs};
ghost use Rattle.compatible.specs.Compatible.{CompatibleIs};

use bisection::DONE;
use codes::{PathWritten, Written};
use compatible::CompatibleAnswer;
use crossing::Crossed;
use greys::ValueAnswer;
use queries::LeafAnswer;
use sheets::SheetAnswer;
use slopes::SlopeAnswer;

#[unsafe(no_mangle)]
pub extern "C" fn rmk_code_check(code: &[u8]) -> u8
    ensures { result ≡ code_refusal code.now }
{
    match codes::code_check(code) {
        Ok(()) => DONE,
        Err(refusal) => refusal.into(),
    }
}

#[unsafe(no_mangle)]
pub extern "C" fn rmk_path_to_code(root: &[u8], path: &[u8], code: &mut [u8]) -> Written
    ensures { PathToCode root.now path.now code.old result code.new }
{
    codes::path_to_code(root, path, code).into()
}

#[unsafe(no_mangle)]
pub extern "C" fn rmk_code_to_path(code: &[u8], root: &mut [u8], path: &mut [u8]) -> PathWritten
    ensures { CodeToPath code.now root.old path.old result root.new path.new }
{
    codes::code_to_path(code, root, path).into()
}

#[unsafe(no_mangle)]
pub extern "C" fn rmk_vertices(code: &[u8], points: &mut [u8]) -> Written
    ensures { Vertices code.now points.old result points.new }
{
    codes::vertices(code, points).into()
}

#[unsafe(no_mangle)]
pub extern "C" fn rmk_child(code: &[u8], which: u8, out: &mut [u8]) -> Written
    ensures { Child code.now which out.old result out.new }
{
    codes::child(code, which, out).into()
}

#[unsafe(no_mangle)]
pub extern "C" fn rmk_parent(code: &[u8], out: &mut [u8]) -> Written
    ensures { Parent code.now out.old result out.new }
{
    codes::parent(code, out).into()
}

#[unsafe(no_mangle)]
pub extern "C" fn rmk_cross(code: &[u8], facet: u8, out: &mut [u8]) -> Crossed
    ensures { Crosses code.now facet out.old result out.new }
{
    crossing::cross(code, facet, out).into()
}

#[unsafe(no_mangle)]
pub extern "C" fn rmk_sheet_check(sheet: &[u8]) -> SheetAnswer
    ensures { SheetIs sheet.now result }
{
    sheets::sheet_check(sheet).into()
}

#[unsafe(no_mangle)]
pub extern "C" fn rmk_leaf_at(sheet: &[u8], point: &[u8], weights: &mut [u8]) -> LeafAnswer
    ensures { LeafIs sheet.now point.now weights.old result weights.new }
{
    queries::leaf_at(sheet, point, weights).into()
}

#[unsafe(no_mangle)]
pub extern "C" fn rmk_value_at(sheet: &[u8], point: &[u8]) -> ValueAnswer
    ensures { FlatValueIs sheet.now point.now result }
{
    queries::value_at(sheet, point).into()
}

#[unsafe(no_mangle)]
pub extern "C" fn rmk_slope_at(sheet: &[u8], point: &[u8]) -> SlopeAnswer
    ensures { FlatSlopeIs sheet.now point.now result }
{
    queries::slope_at(sheet, point).into()
}

#[unsafe(no_mangle)]
pub extern "C" fn rmk_compatible(sheet: &[u8]) -> CompatibleAnswer
    ensures { CompatibleIs sheet.now result }
{
    compatible::compatible(sheet).into()
}
