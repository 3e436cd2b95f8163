// The cases of paper 01, each with what the item reader answers, and what a reader does at that place; the last one is also read
// whole by a run. The smallest records of both headers stand beside case 5, and beside case 9 one whose version has two bytes. Case
// "path" has a body whose first token is a path; in the cases after it that path has a zero byte inside, a last byte that is not zero,
// and no byte at all. The cases "ex" are of expanded headers and tokens; the bytes of their addresses are letters.
#![tactic(auto)]

use bsm_item::item::{Header, Item};
use bsm_item::read::{address_of, body_of, item_at, name_of};
use bsm_item::state::State;
use bsm_reader::past::{left_past, place_past};
use bsm_reader::reader::read_at;
use bsm_token::refusal::Refusal;
use bsm_token::text::text_at;
use std::fmt::Display;
use std::{fmt, io, str};

// The trail of case 17.
const LAST: &[u8] =
    b"\x11\0\0\0\x05\0\0\0\x07\0\x02\x61\0\x14\0\0\0\x19\x0b\0\x48\0\0\0\0\0\x01\0\0\0\x02\x13\xb1\x05\0\0\0\x19";

// Each case: its name, its trail, and the place that is read.
const CASES: [(&str, &[u8], usize); 27] = [
    ("1", b"", 0),
    ("2", b"", 1),
    ("3", b"\x14", 0),
    ("4", b"\x13", 0),
    ("5", b"\x14\0\0\0\x19", 0),
    ("5 less", b"\x14\0\0\0\x18", 0),
    ("5 header64", b"\x74\0\0\0\x21", 0),
    ("5 header64 less", b"\x74\0\0\0\x20", 0),
    ("6", b"\x14\0\0\0\x1a", 0),
    ("7", b"\x14\0\0\xff\xff", 0),
    ("8", b"\x14\0\x01\0\0", 0),
    (
        "9",
        b"\x14\0\0\0\x19\x0b\0\x48\0\0\0\0\0\x01\0\0\0\x02\x13\xb1\x05\0\0\0\x19",
        0,
    ),
    (
        "9 two bytes",
        b"\x14\0\0\0\x1a\0\x0b\0\x48\0\0\0\0\0\x01\0\0\0\x02\x13\xb1\x05\0\0\0\x1a",
        0,
    ),
    (
        "10",
        b"\x14\0\0\0\x1f\x0b\0\x48\0\0\0\0\0\x01\0\0\0\x02\x27\0\0\0\0\0\x13\xb1\x05\0\0\0\x1f",
        0,
    ),
    (
        "11",
        b"\x14\0\0\0\x19\x0b\0\x48\0\0\0\0\0\x01\0\0\0\x02\x13\xb1\x05\0\0\0\x1b",
        0,
    ),
    (
        "11 nanoseconds",
        b"\x14\0\0\0\x19\x0b\0\x48\0\0\0\0\0\x01\x3b\x9a\xca\0\x13\xb1\x05\0\0\0\x1b",
        0,
    ),
    ("12", b"\x11\0\0\0\x05\0\0\0\x07\0\x02\x61\0", 0),
    ("13", b"\x11\0\0\0\x05\0\0\0\x07\0\x03\0\x61\0", 0),
    (
        "14",
        b"\x14\0\0\0\x1b\x0b\0\x48\0\0\0\0\0\x01\0\0\0\x02\x2c\0\x13\xb1\x05\0\0\0\x1b",
        0,
    ),
    (
        "15",
        b"\x14\0\0\0\x1a\x0b\0\x48\0\0\0\0\0\x01\0\0\0\x02\0\x13\xb1\x05\0\0\0\x1a",
        0,
    ),
    (
        "16",
        b"\x14\0\0\0\x23\x0b\0\x48\0\0\0\0\0\x01\0\0\0\x02\x29\0\x07\x13\xb1\x05\0\0\0\x1a\x13\xb1\x05\0\0\0\x23",
        0,
    ),
    (
        "path",
        b"\x14\0\0\0\x27\x0b\0\x48\0\0\0\0\0\x01\0\0\0\x02\x23\0\x05/etc\0\x27\0\0\0\0\0\x13\xb1\x05\0\0\0\x27",
        0,
    ),
    (
        "zero inside",
        b"\x14\0\0\0\x27\x0b\0\x48\0\0\0\0\0\x01\0\0\0\x02\x23\0\x05/e\0c\0\x27\0\0\0\0\0\x13\xb1\x05\0\0\0\x27",
        0,
    ),
    (
        "no zero",
        b"\x14\0\0\0\x27\x0b\0\x48\0\0\0\0\0\x01\0\0\0\x02\x23\0\x05/etc/\x27\0\0\0\0\0\x13\xb1\x05\0\0\0\x27",
        0,
    ),
    (
        "no byte",
        b"\x14\0\0\0\x1c\x0b\0\x48\0\0\0\0\0\x01\0\0\0\x02\x23\0\0\x13\xb1\x05\0\0\0\x1c",
        0,
    ),
    ("17", LAST, 0),
    ("17", LAST, 13),
];

// The cases of expanded headers and tokens, which are read at their start.
const EXPANDED: [(&str, &[u8]); 9] = [
    ("ex", b"\x15\0\0\0\x21"),
    ("ex less", b"\x15\0\0\0\x20"),
    ("ex header64", b"\x79\0\0\0\x29"),
    (
        "ex of 4",
        b"\x15\0\0\0\x21\x0b\0\x48\0\0\0\0\0\x04abcd\0\0\0\x01\0\0\0\x02\x13\xb1\x05\0\0\0\x21",
    ),
    (
        "ex of 16",
        b"\x15\0\0\0\x2d\x0b\0\x48\0\0\0\0\0\x10abcdefghijklmnop\0\0\0\x01\0\0\0\x02\x13\xb1\x05\0\0\0\x2d",
    ),
    (
        "ex type",
        b"\x15\0\0\0\x21\x0b\0\x48\0\0\0\0\0\x05abcd\0\0\0\x01\0\0\0\x02\x13\xb1\x05\0\0\0\x21",
    ),
    (
        "ex of 16 less",
        b"\x15\0\0\0\x21\x0b\0\x48\0\0\0\0\0\x10abcd\0\0\0\x01\0\0\0\x02\x13\xb1\x05\0\0\0\x21",
    ),
    (
        "ex token",
        b"\x15\0\0\0\x2a\x0b\0\x48\0\0\0\0\0\x04abcd\0\0\0\x01\0\0\0\x02\x7e\0\0\0\x04efgh\x13\xb1\x05\0\0\0\x2a",
    ),
    (
        "ex token type",
        b"\x15\0\0\0\x2a\x0b\0\x48\0\0\0\0\0\x04abcd\0\0\0\x01\0\0\0\x02\x7e\0\0\0\x05efgh\x13\xb1\x05\0\0\0\x2a",
    ),
];

// The bytes of a text; those of the cases are all UTF-8.
#[derive(Clone, Copy)]
struct Text<'a>(&'a [u8]);

impl<'a> Display for Text<'a> {
    fn fmt<W: fmt::Write>(&self, f: &mut fmt::Formatter<W>) -> fmt::Result {
        f.write_str(str::from_utf8(self.0).unwrap_or("not UTF-8"))
    }
}

// As in bsm_written, with which this program shares no crate of its own.
#[derive(Clone, Copy)]
struct Refused(Refusal);

impl Display for Refused {
    fn fmt<W: fmt::Write>(&self, f: &mut fmt::Formatter<W>) -> fmt::Result {
        let Refusal {
            number,
            place,
            need,
        } = self.0;
        write!(f, "refused\t{number}\t{place}\t{need}")
    }
}

// The values of a record's header.
#[derive(Clone, Copy)]
struct Values(Header);

impl Display for Values {
    fn fmt<W: fmt::Write>(&self, f: &mut fmt::Formatter<W>) -> fmt::Result {
        let h = self.0;
        write!(f, "{}\t{}", h.number, h.version)?;
        write!(f, "\t{}\t{}", h.event, h.modifier)?;
        write!(f, "\t{}\t{}", h.seconds, h.nanoseconds)
    }
}

// A record's body: its size, and the string of its first token.
#[derive(Clone, Copy)]
struct Body<'a>(&'a [u8]);

impl<'a> Display for Body<'a> {
    fn fmt<W: fmt::Write>(&self, f: &mut fmt::Formatter<W>) -> fmt::Result {
        write!(f, "{}\t\"{}\"", self.0.len(), Text(text_at(self.0, 0)))
    }
}

// The address of an expanded header; nothing for another header.
#[derive(Clone, Copy)]
struct Address<'a>(&'a [u8]);

impl<'a> Display for Address<'a> {
    fn fmt<W: fmt::Write>(&self, f: &mut fmt::Formatter<W>) -> fmt::Result {
        if self.0.is_empty() {
            return Ok(());
        }
        write!(f, "\t\"{}\"", Text(self.0))
    }
}

// An item of a trail: its size and fields, where its name or body stands, and the name or the body; then a header's address.
#[derive(Clone, Copy)]
struct Found<'a> {
    trail: &'a [u8],
    item: Item,
}

impl<'a> Display for Found<'a> {
    fn fmt<W: fmt::Write>(&self, f: &mut fmt::Formatter<W>) -> fmt::Result {
        let (trail, item) = (self.trail, self.item);
        match item {
            Item::File {
                size,
                seconds,
                microseconds,
                start,
                length,
            } => {
                write!(
                    f,
                    "file\t{size}\t{seconds}\t{microseconds}\t{start}\t{length}"
                )?;
                write!(f, "\t{}", Text(name_of(trail, item)))
            }
            Item::Record {
                size,
                header,
                tokens,
                start,
                length,
            } => {
                write!(
                    f,
                    "record\t{size}\t{}\t{tokens}\t{start}\t{length}",
                    Values(header)
                )?;
                write!(
                    f,
                    "\t{}{}",
                    Body(body_of(trail, item)),
                    Address(address_of(trail, item))
                )
            }
        }
    }
}

// What a reader answers at a place of a trail.
#[derive(Clone, Copy)]
struct Answer<'a> {
    trail: &'a [u8],
    read: Result<Option<Item>, Refusal>,
}

impl<'a> Display for Answer<'a> {
    fn fmt<W: fmt::Write>(&self, f: &mut fmt::Formatter<W>) -> fmt::Result {
        let trail = self.trail;
        match self.read {
            Ok(Some(item)) => write!(f, "{}", Found { trail, item }),
            Ok(None) => write!(f, "end"),
            Err(refusal) => write!(f, "{}", Refused(refusal)),
        }
    }
}

// Two lines: the case's name and the answer at a place of its trail; and for a reader there, the place past the item, how many
// bytes are left from it on, and the reader's answer.
fn case(rt: &impl Print, name: &str, trail: &[u8], place: usize) -> io::Result<()> {
    let read = item_at(trail, place);
    println!(rt; "{name}\t{}", Answer { trail, read })?;
    let past = place_past(trail, place);
    let left = left_past(trail, place);
    let read = read_at(trail, place);
    println!(rt;
        "{name}\treader\t{past}\t{left}\t{}",
        Answer { trail, read }
    )
}

// One line: the case's name, and what a run from the fresh state hands back.
fn whole(rt: &impl Print, name: &str, trail: &[u8]) -> io::Result<()> {
    let run = State::fresh().run(trail);
    let State {
        place,
        records,
        files,
    } = run.state;
    print!(rt; "{name}\trun\t{place}\t{records}\t{files}\t")?;
    match run.ending {
        Ok(()) => println!(rt; "end"),
        Err(refusal) => println!(rt; "{}", Refused(refusal)),
    }
}

fn main(rt: HostRuntime) -> io::Result<()> {
    for (name, trail, place) in CASES {
        case(&rt, name, trail, place)?;
    }
    whole(&rt, "17", LAST)?;
    for (name, trail) in EXPANDED {
        case(&rt, name, trail, 0)?;
    }
    Ok(())
}
