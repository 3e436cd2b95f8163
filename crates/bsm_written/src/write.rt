// Writing behind what stands in a buffer.
ghost use Rattle.std.specs.Prelude.{◌≤◌, IfOk, length};

use crate::print::{Layout, Written};
use crate::read::Refused;
use bsm_token::part::part;
use bsm_token::refusal::Refusal;
use std::io;

// How many bytes were written; a refusal is printed, and wrote none.
pub(crate) fn count(rt: &impl Print, answer: Result<usize, Refusal>) -> io::Result<usize> {
    match answer {
        Ok(n) => Ok(n),
        Err(refusal) => {
            println!(rt; "{}", Refused(refusal))?;
            Ok(0)
        }
    }
}

// Writes a token or an item at a place and prints what was written; answers the place behind it.
pub(crate) fn put<F: FnOnce(&mut [u8]) -> Result<usize, Refusal>>(
    rt: &impl Print,
    space: &mut [u8],
    at: usize,
    layout: Layout,
    write: F,
) -> io::Result<usize>
    requires place { at ≤ length space.old }
    requires callable { F.IsAlwaysCallable write }
    ensures { IfOk result (λ end. end ≤ length space.new) }
{
    let n = count(rt, write(&mut space[at..]))?;
    println!(rt;
        "{}",
        Written {
            layout,
            bytes: part(space, at, n)
        }
    )?;
    Ok(at.saturating_add(n).min(space.len()))
}
