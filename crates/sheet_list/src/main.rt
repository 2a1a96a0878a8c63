// The listing program: a sheet from standard input, its listing to standard output. It reads one byte more than a
// listed sheet may have, so that a larger input is known as one. A failed read counts as the end of the input. Where the
// listing cannot be written whole, one line on standard error says so.
#![tactic(auto)]

ghost use Rattle.std.specs.Prelude.{◌≤◌, length};

use std::io::{Print, Read, Stdin};

// Reads until the bytes are full, the input ends or a read fails, and answers how many bytes it put at their front.
fn read_full(input: &mut Stdin, bytes: &mut [u8]) -> usize
    ensures { result ≤ length bytes.new }
{
    let mut done: usize = 0;
    // a `while`: a read may give fewer bytes than there is room for, and `read_exact` does not say how many there were
    while done < bytes.len() {
        match input.read(&mut bytes[done..]) {
            Ok(0) | Err(_) => break,
            Ok(n) => done += n,
        }
    }
    done
}

fn main(rt: HostRuntime) {
    let mut sheet = [0u8; listing::SHEET_LIMIT + 1];
    let read = read_full(&mut rt.stdin(), &mut sheet);
    let mut text = [0u8; listing::TEXT_ROOM];
    let length = listing::list_sheet(&sheet[..read], &mut text);
    if rt.stdout().write_all(&text[..length]).is_err() {
        let _said = rt
            .stderr()
            .write_all(b"sheet_list: the output could not be written whole\n");
    }
}
