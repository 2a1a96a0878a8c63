// Text in a lent buffer: each function puts bytes at a place and answers the place after them.
ghost use Rattle.std.specs.Prelude.{◌≡◌, ◌++◌, ◌+◌, ◌*◌, ◌≤◌, ◌<◌, length};
ghost use Rattle.listing.specs.Texts.{decimal as Texts·decimal, hex as Texts·hex, digit as Texts·digit, leaf_line, number_line};
ghost use Rattle.common.specs.Putting.{Puts};

// Puts bytes.
pub fn put(out: &mut [u8], at: usize, bytes: &[u8]) -> usize
    requires { at + length bytes.now ≤ length out.old }
    ensures { Puts at bytes.now out.old result out.new }
{
    common::copy(bytes, 0, bytes.len(), out, at);
    at + bytes.len()
}

// Puts a number in decimal.
#[tactic(auto, using(crate::specs::Digits::decimal_is))]
pub fn put_decimal(out: &mut [u8], at: usize, n: usize) -> usize
    requires { at + length (Texts·decimal n) ≤ length out.old }
    ensures { Puts at (Texts·decimal n) out.old result out.new }
{
    let mut digits = [0u8; 20];
    let count = io::decimal(n as u64, &mut digits); // `as`: a usize has no `From` into a u64
    put(out, at, &digits[..count])
}

// A digit below 16.
fn digit(n: u8) -> u8
    requires { n < 16 }
    ensures { result ≡ Texts·digit n }
{
    b"0123456789abcdef"[usize::from(n)]
}

// Puts bytes in hex.
pub fn put_hex(out: &mut [u8], at: usize, bytes: &[u8]) -> usize
    requires { at + 2 * length bytes.now ≤ length out.old }
    ensures { Puts at (Texts·hex bytes.now) out.old result out.new }
{
    for (i, &b) in bytes.iter().enumerate() {
        out[at + 2 * i] = digit(b / 16);
        out[at + 2 * i + 1] = digit(b % 16);
    }
    at + 2 * bytes.len()
}

// Puts a word, a number and the line's end.
#[tactic(auto, using(crate::specs::Lines::number_length))]
pub fn put_line(out: &mut [u8], at: usize, word: &[u8], n: usize) -> usize
    requires { at + length (number_line word.now n) ≤ length out.old }
    ensures { Puts at (number_line word.now n) out.old result out.new }
{
    let at = put(out, at, word);
    let at = put_decimal(out, at, n);
    put(out, at, b"\n")
}

// Puts a leaf's line: its record's number and its code.
#[tactic(auto, using(crate::specs::Lines::leaf_length, crate::specs::Digits::hex_length))]
pub fn put_leaf(out: &mut [u8], at: usize, number: usize, code: &[u8]) -> usize
    requires { at + length (leaf_line number code.now) ≤ length out.old }
    ensures { Puts at (leaf_line number code.now) out.old result out.new }
{
    let at = put_decimal(out, at, number);
    let at = put(out, at, b" ");
    let at = put_hex(out, at, code);
    put(out, at, b"\n")
}
