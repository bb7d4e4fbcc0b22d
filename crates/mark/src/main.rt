// The program *mark*: the texts of the files `sheet` and `script`, and to standard output the verdict on the script, or the refusal.
#![tactic(auto)]

ghost use Rattle.input.specs.Counts.{IsPrefixLen};

use reports::mark;
use rules::sheet::Sheet;
use std::rt::Files;
use std::{fs, io};

// One byte more than a text may have, so that a longer one is seen to be longer; the rest of it is not read.
const BYTES: usize = Sheet::MAX_TEXT + 1;

// Reads the file to the start of `text`, as much of it as there is room for, and answers how many bytes that is; none where it cannot be read.
fn read_file(rt: &impl Files, path: &str, text: &mut [u8]) -> usize
    ensures { IsPrefixLen result text.new }
{
    let Ok(mut file) = fs::open(rt, path) else {
        return 0;
    };
    input::read_text(&mut file, text)
}

fn main(rt: HostRuntime) -> io::Result<()> {
    // Kept: buffers and their lengths: memory is fixed.
    let mut sheet = [0; BYTES];
    let sheet_length = read_file(&rt, "sheet", &mut sheet);
    let mut script = [0; BYTES];
    let script_length = read_file(&rt, "script", &mut script);
    let mut out = [0; mark::ROOM];
    let end = mark::print_mark(&sheet[..sheet_length], &script[..script_length], &mut out);
    rt.write_all(&out[..end])
}
