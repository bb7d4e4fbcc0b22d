// The program *key*: the text of a sheet from standard input, and to standard output the text of its tightest key, or the refusal.
#![tactic(auto)]

use reports::key;
use rules::sheet::Sheet;
use std::io;

// One byte more than a text may have, so that a longer one is seen to be longer; the rest of it is not read.
const BYTES: usize = Sheet::MAX_TEXT + 1;

fn main(rt: HostRuntime) -> io::Result<()> {
    // Kept: a buffer and its length: memory is fixed.
    let mut text = [0; BYTES];
    let length = input::read_text(&mut rt.stdin(), &mut text);
    let mut out = [0; key::ROOM];
    let end = key::print_key(&text[..length], &mut out);
    rt.write_all(&out[..end])
}
