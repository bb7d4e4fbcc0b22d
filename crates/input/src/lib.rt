// Reading a text, for the programs. That no more bytes are told than there are is proved. Which bytes were read, and that any were, the contract does not say:
// a body that answers 0 and reads nothing is proved too. It is tested only: on such a body the stored outputs of *key* and *mark* fail, and so does
// tools/programs.
#![tactic(auto)]

ghost use Rattle.input.specs.Counts.{IsPrefixLen};

use std::io::Read;

// Reads to the start of `text` until it is full or the input ends, and answers how many bytes that is; none where a read fails, at once or midway.
pub fn read_text<R: Read>(file: &mut R, text: &mut [u8]) -> usize
    ensures { IsPrefixLen result text.new }
{
    let mut done = 0;
    // Kept: the loop. The fixed-memory rule: the library's `read_to_end` makes a Vec, and `read_exact` does not tell how many bytes a shorter file has.
    while done < text.len() {
        match file.read(&mut text[done..]) {
            Ok(0) => return done,
            Ok(more) => done += more,
            Err(_) => return 0,
        }
    }
    done
}
