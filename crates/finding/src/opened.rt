// The whole check of a sheet, with what those need who go on with it.
ghost use Rattle.finding.specs.Opened.{OpenedIs};

use bisection::Refused;
use dimension::Dim;

// The dimension of a good sheet, and how many records it has.
#[derive(Clone, Copy)]
pub struct Opened {
    pub dim: Dim,
    pub records: usize,
}

pub fn check_sheet(bytes: &[u8]) -> Result<Opened, Refused>
    ensures { OpenedIs bytes.now result }
{
    let records = sheets::sheet_check(bytes)?;
    let first = sheets::record_parts(sheets::first_edition(), bytes);
    Ok(Opened {
        dim: first.dim,
        records,
    })
}
