// What is said on standard error.
use std::fmt::Display;
use std::io::{Cursor, Write};
use std::{fmt, io, str};

// Says what failed and why, in a line. That standard error cannot be written is nothing that could be said.
pub(crate) fn fail(rt: &impl Eprint, what: &str, why: impl Display + Drop) {
    let _ = eprintln!(rt; "{what}: {why}");
}

// The system's own words for an error, without the number that std writes behind them.
#[derive(Clone, Copy)]
pub(crate) struct Reason<'a>(pub(crate) &'a io::Error);

impl<'a> Display for Reason<'a> {
    fn fmt<W: fmt::Write>(&self, f: &mut fmt::Formatter<W>) -> fmt::Result {
        let mut text = Cursor::new([0u8; 128]);
        // Where it does not fit, its end is left out.
        let _ = write!(text, "{}", self.0);
        let n = (text.position() as usize).min(128);
        let bytes = text.into_inner();
        let words = str::from_utf8(&bytes[..n]).unwrap_or("");
        f.write_str(
            words
                .split_once(" (os error ")
                .map_or(words, |(front, _)| front),
        )
    }
}
