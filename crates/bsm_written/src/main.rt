// Writes a token of each kind, a file token and records into one buffer, one behind the other; for each it prints the bytes that
// were written, in hexadecimal and parted into fields, and what is read there. Last come writes that are refused.
#![tactic(auto)]

mod items;
mod print;
mod read;
mod tokens;
mod write;

use bsm_bytes::bytes::write_bytes;
use bsm_token::part::part;
use items::{all_items, write_refused};
use std::io;
use tokens::all_tokens;
use write::count;

fn main(rt: HostRuntime) -> io::Result<()> {
    let mut space = [0u8; 4096];
    let mut body = [0u8; 4096];
    let at = all_tokens(&rt, &mut space)?;
    let n = count(&rt, write_bytes(&mut body, part(&space, 0, at)))?;
    all_items(&rt, &mut space, at, part(&body, 0, n))?;
    write_refused(&rt, &mut space, part(&body, 0, n))
}
