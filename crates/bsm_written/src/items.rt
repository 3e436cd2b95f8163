// A file token and records: writing them.
ghost use Rattle.std.specs.Prelude.{◌≤◌, IfOk, length};

use crate::print::Layout;
use crate::read::ItemAt;
use crate::write::{count, put};
use bsm_draft::header::HeaderFields;
use bsm_token::body::walk_body;
use bsm_token::part::{part, rest};
use bsm_token::refusal::Refusal;
use bsm_write::file::write_file;
use bsm_write::record::{write_record32, write_record32_ex, write_record64, write_record64_ex};
use std::io;

// How many bytes a record's trailer has.
const TRAILER: usize = 7;

const FILE: Layout = Layout {
    name: "file",
    widths: &[1, 4, 4, 2],
    trailer: 0,
};

const RECORD32: Layout = Layout {
    name: "record32",
    widths: &[1, 4, 1, 2, 2, 4, 4],
    trailer: TRAILER,
};

const RECORD64: Layout = Layout {
    name: "record64",
    widths: &[1, 4, 1, 2, 2, 8, 8],
    trailer: TRAILER,
};

const RECORD32_EX: Layout = Layout {
    name: "record32_ex",
    widths: &[1, 4, 1, 2, 2, 4, 4, 4, 4],
    trailer: TRAILER,
};

const RECORD64_EX: Layout = Layout {
    name: "record64_ex",
    widths: &[1, 4, 1, 2, 2, 4, 16, 8, 8],
    trailer: TRAILER,
};

fn header() -> HeaderFields {
    HeaderFields {
        version: 11,
        event: 72,
        modifier: 0,
        seconds: 1,
        nanoseconds: 999999999,
    }
}

// The tokens of a body up to its second subject, where a walk refuses it.
fn with_one(body: &[u8]) -> &[u8] {
    match walk_body(body) {
        Ok(_) => body,
        Err(f) => part(body, 0, f.place),
    }
}

// The tokens from that subject on.
fn behind(body: &[u8]) -> &[u8] {
    rest(body, with_one(body).len())
}

// Writes an item at a place and prints what was written and what is read there; answers the place behind it.
fn put_item<F: FnOnce(&mut [u8]) -> Result<usize, Refusal>>(
    rt: &impl Print,
    space: &mut [u8],
    place: usize,
    layout: Layout,
    write: F,
) -> io::Result<usize>
    requires place { place ≤ length space.old }
    requires callable { F.IsAlwaysCallable write }
    ensures { IfOk result (λ end. end ≤ length space.new) }
{
    let end = put(rt, space, place, layout, write)?;
    let trail = part(space, 0, end);
    println!(rt; "  read{}", ItemAt { trail, place })?;
    Ok(end)
}

// A record without a body, and two that have the first tokens of one, each with a subject of another kind; answers the place behind them.
fn plain_records(rt: &impl Print, space: &mut [u8], from: usize, body: &[u8]) -> io::Result<usize>
    requires { from ≤ length space.old }
    ensures { IfOk result (λ end. end ≤ length space.new) }
{
    let second = behind(body);
    let at = put_item(
        rt,
        space,
        from,
        RECORD32,
        |dst| write_record32(dst, header(), b""),
    )?;
    let at = put_item(
        rt,
        space,
        at,
        RECORD32,
        |dst| write_record32(dst, header(), with_one(body)),
    )?;
    put_item(
        rt,
        space,
        at,
        RECORD64,
        |dst| write_record64(dst, header(), with_one(second)),
    )
}

// Records with an address of each length, which share the tokens of a body.
fn expanded_records(
    rt: &impl Print,
    space: &mut [u8],
    from: usize,
    body: &[u8],
) -> io::Result<usize>
    requires { from ≤ length space.old }
    ensures { IfOk result (λ end. end ≤ length space.new) }
{
    let second = behind(body);
    let short = b"\xC0\0\x02\x01";
    let long = b"\x20\x01\x0D\xB8\0\0\0\0\0\0\0\0\0\0\0\x01";
    let at = put_item(
        rt,
        space,
        from,
        RECORD32_EX,
        |dst| write_record32_ex(dst, header(), short, with_one(body)),
    )?;
    put_item(
        rt,
        space,
        at,
        RECORD64_EX,
        |dst| write_record64_ex(dst, header(), long, second),
    )
}

// A file token, a record without a body, and four records that share the tokens of a body, with a header and a subject of another kind
// each, from a place of a buffer on.
pub(crate) fn all_items(
    rt: &impl Print,
    space: &mut [u8],
    from: usize,
    body: &[u8],
) -> io::Result<()>
    requires { from ≤ length space.old }
{
    let at = put_item(rt, space, from, FILE, |dst| write_file(dst, 5, 7, b"a"))?;
    let at = plain_records(rt, space, at, body)?;
    expanded_records(rt, space, at, behind(behind(body)))?;
    Ok(())
}

// Writes that are refused: an address of 5 bytes, and the whole body in one record.
pub(crate) fn write_refused(rt: &impl Print, dst: &mut [u8], body: &[u8]) -> io::Result<()> {
    print!(rt; "record32_ex, an address of 5 bytes\n  ")?;
    count(
        rt,
        write_record32_ex(dst, header(), b"\x01\x02\x03\x04\x05", b""),
    )?;
    print!(rt; "record32, a second subject\n  ")?;
    count(rt, write_record32(dst, header(), body))?;
    Ok(())
}
