// Where the program writes; what it writes that is neither text nor a number, and the ends of lines that it often writes.
ghost use Rattle.std.specs.Prelude.{IsOk};
ghost use Rattle.worked.specs.Slopes.{NoNan};

use bisection::{Refusal, Refused};
use slopes::Slopes;
use std::fmt;
use std::fmt::Write;
use std::io::{Print, Stdout};

// Standard output, part by part. What cannot be written is left out, and the next part is tried all the same.
#[derive(Drop)]
pub struct Out(pub Stdout);

impl Out {
    pub fn put(&mut self, bytes: &[u8]) {
        let _written = self.0.write_all(bytes);
    }
}

impl fmt::Write for Out {
    // It never fails, so that no `?` behind a `write!` ends a line.
    fn write_str(&mut self, s: &str) -> fmt::Result
        ensures { IsOk result }
    {
        self.put(s.as_bytes());
        Ok(())
    }
}

// A number in hex, with so many digits or more, as one part: `{:02x}` gives its zeros by themselves.
fn spelled<W: fmt::Write>(f: &mut fmt::Formatter<W>, n: u64, width: usize) -> fmt::Result {
    let mut digits = [0u8; 16];
    let count = io::hex(n, width, &mut digits);
    f.write_str(str::from_utf8(&digits[..count]).unwrap_or(""))
}

// The bytes of a code: two digits each.
#[derive(Clone, Copy)]
pub struct Code<'a>(pub &'a [u8]);

impl fmt::Display for Code<'_> {
    fn fmt<W: fmt::Write>(&self, f: &mut fmt::Formatter<W>) -> fmt::Result {
        for byte in self.0 {
            spelled(f, u64::from(*byte), 2)?;
        }
        Ok(())
    }
}

// The axes of a root or the steps of a path: one digit each.
#[derive(Clone, Copy)]
pub struct Digits<'a>(pub &'a [u8]);

impl fmt::Display for Digits<'_> {
    fn fmt<W: fmt::Write>(&self, f: &mut fmt::Formatter<W>) -> fmt::Result {
        for byte in self.0 {
            write!(f, "{byte:x}")?;
        }
        Ok(())
    }
}

// Numbers of two bytes each, the low byte first: a space before each.
#[derive(Clone, Copy)]
pub struct Pairs<'a>(pub &'a [u8]);

impl fmt::Display for Pairs<'_> {
    fn fmt<W: fmt::Write>(&self, f: &mut fmt::Formatter<W>) -> fmt::Result {
        for pair in self.0.chunks_exact(2) {
            write!(f, " {}", u16::from_le_bytes([pair[0], pair[1]]))?;
        }
        Ok(())
    }
}

// A number by its bits: -0.0 is another than +0.0.
#[derive(Clone, Copy)]
struct Bits(u64);

impl fmt::Display for Bits {
    fn fmt<W: fmt::Write>(&self, f: &mut fmt::Formatter<W>) -> fmt::Result {
        spelled(f, self.0, 16)
    }
}

// The slope on each of the four axes.
pub fn slopes(to: &mut Out, on: Slopes) -> fmt::Result
    requires { NoNan on }
{
    writeln!(
        to,
        "{} {} {} {}",
        Bits(on.first.to_bits()),
        Bits(on.second.to_bits()),
        Bits(on.third.to_bits()),
        Bits(on.fourth.to_bits())
    )
}

pub fn refused(to: &mut Out, refusal: Refusal) -> fmt::Result {
    writeln!(to, "refused {}", u8::from(refusal))
}

// The same with the offset at which it was found.
pub fn refused_at(to: &mut Out, refused: Refused) -> fmt::Result {
    writeln!(
        to,
        "refused {} at {}",
        u8::from(refused.refusal),
        refused.offset
    )
}
