// Bytes by their kind, and decimal numerals: read at a cursor, compared, written.
// Kept: a text and a cursor are two parameters, as are a buffer and a cursor. Clauses speak of the text from the cursor on (`drop at s.now`, `Spliced`), one text
// is read at several cursors at once, and memory is lent, so that a struct of both would be built anew at each call and be no plainer.
#![tactic(auto)]

pub mod byte;
pub mod compare;
pub mod read;
pub mod write;
