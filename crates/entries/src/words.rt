// Bytes as one word, the first in its lowest byte: one is read by a shift, whatever its place.
ghost use Rattle.std.specs.Prelude.{◌≡◌, ◌+◌, ◌/◌, ◌%◌, ◌^◌, ◌≤◌, ◌<◌, length, get_or};
ghost use Rattle.entries.specs.Words.{bytes_of, FirstOf, WordOf, WordAt, Puts};

// The byte of a word that begins at a bit.
pub fn byte(w: u32, bit: u32) -> u8
    requires { bit < 32 }
    ensures { result ≡ w / 2 ^ bit % 256 }
{
    ((w >> bit) % 256) as u8
}

// The byte at a place.
pub fn byte_at(w: u32, n: usize) -> u8
    requires { n < 4 }
    ensures { result ≡ get_or (bytes_of w) n 0 }
{
    byte(w, 8 * (n as u32))
}

// Its first k bytes, with zeros behind them.
pub fn first(w: u32, k: usize) -> u32
    requires { (1 ≤ k) × (k ≤ 4) }
    ensures { FirstOf k (bytes_of w) (bytes_of result) }
{
    let behind = 8 * (4 - k);
    (w << behind) >> behind
}

// The word of four bytes.
pub fn word_of(a: u8, b: u8, c: u8, d: u8) -> u32
    ensures { WordOf a b c d result }
{
    u32::from_le_bytes([a, b, c, d])
}

// That of the four bytes from a place on: one read.
pub fn word_at(bytes: &[u8], at: usize) -> u32
    requires { at + 4 ≤ length bytes.now }
    ensures { WordAt bytes.now at result }
{
    word_of(bytes[at], bytes[at + 1], bytes[at + 2], bytes[at + 3])
}

// The byte at a place, 0 where there is none.
fn byte_or_none(bytes: &[u8], n: usize) -> u8
    ensures { result ≡ get_or bytes.now n 0 }
{
    bytes.get(n).copied().unwrap_or(0)
}

// That of the first four bytes, of as many as there are.
pub fn first_word(bytes: &[u8]) -> u32
    ensures { WordAt bytes.now 0 result }
{
    word_of(
        byte_or_none(bytes, 0),
        byte_or_none(bytes, 1),
        byte_or_none(bytes, 2),
        byte_or_none(bytes, 3),
    )
}

// Writes the four bytes of a word from a place on: one store.
pub fn put(w: u32, out: &mut [u8], at: usize)
    requires { at + 4 ≤ length out.old }
    ensures { Puts at (bytes_of w) out.old out.new }
{
    out[at..at + 4].copy_from_slice(&w.to_le_bytes());
}
