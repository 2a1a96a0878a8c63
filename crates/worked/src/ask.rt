// Each entry asked: what it is asked and what it answers, on one line.
use crate::say;
use crate::say::{Code, Digits, Out, Pairs};
use dimension::Dim;
use std::fmt;
use std::fmt::Write;

// The check of a code.
pub fn checked(to: &mut Out, case: &str, code: &[u8]) -> fmt::Result {
    write!(to, "{case}: code {}: ", Code(code))?;
    match codes::code_check(code) {
        Ok(()) => writeln!(to, "good"),
        Err(refusal) => say::refused(to, refusal),
    }
}

// The code of a root and a path.
pub fn coded(to: &mut Out, case: &str, root: &[u8], path: &[u8]) -> fmt::Result {
    write!(to, "{case}: root {} path {}: ", Digits(root), Digits(path))?;
    let mut code = [0u8; Dim::LONGEST_CODE];
    match codes::path_to_code(root, path, &mut code) {
        Ok(length) => writeln!(to, "{}", Code(&code[..length])),
        Err(refusal) => say::refused(to, refusal),
    }
}

// A child.
pub fn child(to: &mut Out, case: &str, code: &[u8], which: u8) -> fmt::Result {
    write!(to, "{case}: child {which} of {}: ", Code(code))?;
    let mut out = [0u8; Dim::LONGEST_CODE];
    match codes::child(code, which, &mut out) {
        Ok(length) => writeln!(to, "{}", Code(&out[..length])),
        Err(refusal) => say::refused(to, refusal),
    }
}

// Crossing a facet.
pub fn crossed(to: &mut Out, case: &str, code: &[u8], facet: u8) -> fmt::Result {
    write!(to, "{case}: {} across {facet}: ", Code(code))?;
    let mut out = [0u8; Dim::LONGEST_CODE];
    match crossing::cross(code, facet, &mut out) {
        Ok(landed) => {
            let new = landed.vertex;
            writeln!(
                to,
                "place {}, vertex {} {} {} {}, of {}",
                landed.place,
                new.first,
                new.second,
                new.third,
                new.fourth,
                Code(&out[..landed.length])
            )
        }
        Err(refusal) => say::refused(to, refusal),
    }
}

// The check of a sheet.
pub fn sheet(to: &mut Out, case: &str, bytes: &[u8]) -> fmt::Result {
    write!(to, "{case}: ")?;
    match sheets::sheet_check(bytes) {
        Ok(records) => writeln!(to, "records {records}"),
        Err(refused) => say::refused_at(to, refused),
    }
}

// The leaf at a point, in dimension 2, and its weights.
pub fn leaf(to: &mut Out, sheet: &[u8], point: &[u8]) -> fmt::Result {
    write!(to, "leaf at{}: ", Pairs(point))?;
    let mut weights = [0u8; 6];
    match queries::leaf_at(sheet, point, &mut weights) {
        Ok(leaf) => writeln!(to, "record {} weights{}", leaf.number, Pairs(&weights)),
        Err(refused) => say::refused(to, refused.refusal),
    }
}

// The grey value there.
pub fn value(to: &mut Out, sheet: &[u8], point: &[u8]) -> fmt::Result {
    write!(to, "value at{}: ", Pairs(point))?;
    match queries::value_at(sheet, point) {
        Ok(value) => writeln!(to, "{value}"),
        Err(refused) => say::refused(to, refused.refusal),
    }
}

// The slope there, on each axis.
pub fn slope(to: &mut Out, case: &str, sheet: &[u8], point: &[u8]) -> fmt::Result {
    write!(to, "{case}: slope at{}: ", Pairs(point))?;
    match queries::slope_at(sheet, point) {
        Ok(on) => say::slopes(to, on),
        Err(refused) => say::refused(to, refused.refusal),
    }
}

// Whether a sheet is compatible.
pub fn compatible(to: &mut Out, case: &str, bytes: &[u8]) -> fmt::Result {
    write!(to, "{case}: ")?;
    match compatible::compatible(bytes) {
        Ok(true) => writeln!(to, "yes"),
        Ok(false) => writeln!(to, "no"),
        Err(refused) => say::refused_at(to, refused),
    }
}

// What the listing program writes.
pub fn listed(to: &mut Out, bytes: &[u8]) -> fmt::Result {
    writeln!(to, "listing of {} bytes:", bytes.len())?;
    let mut text = [0u8; listing::TEXT_ROOM];
    let length = listing::list_sheet(bytes, &mut text);
    to.put(&text[..length]);
    Ok(())
}
