// A token of each kind: writing it.
ghost use Rattle.std.specs.Prelude.{◌≡◌, ◌≤◌, IfOk, OnErr, length};

use crate::print::Layout;
use crate::read::TokenAt;
use crate::write::put;
use bsm_token::kind;
use bsm_token::kind::{IpHeader, Party, PartyEx, Permissions};
use bsm_token::part::part;
use bsm_token::refusal::Refusal;
use bsm_write::expanded::{
    write_in_addr_ex, write_process32_ex, write_process64_ex, write_subject32_ex,
    write_subject64_ex,
};
use bsm_write::simple::{
    write_exit, write_in_addr, write_ip, write_ipc_perm, write_iport, write_process32,
    write_process64, write_return32, write_return64, write_seq, write_subject32, write_subject64,
};
use bsm_write::tail::{write_exec_args, write_exec_env, write_newgroups, write_opaque};
use bsm_write::text::{write_arg32, write_arg64, write_path, write_text};
use std::io;

// A token of each kind: its number, its name, and the widths of the fields in front, in the order of their writing.
const TOKENS: [(u8, &str, &[u8]); 25] = [
    (kind::PATH, "path", &[1, 2]),
    (
        kind::SUBJECT32,
        "subject32",
        &[1, 4, 4, 4, 4, 4, 4, 4, 4, 4],
    ),
    (
        kind::PROCESS32,
        "process32",
        &[1, 4, 4, 4, 4, 4, 4, 4, 4, 4],
    ),
    (kind::RETURN32, "return32", &[1, 1, 4]),
    (kind::TEXT, "text", &[1, 2]),
    (kind::OPAQUE, "opaque", &[1, 2]),
    (kind::IN_ADDR, "in_addr", &[1, 4]),
    (kind::IP, "ip", &[1, 1, 1, 2, 2, 2, 1, 1, 2, 4, 4]),
    (kind::IPORT, "iport", &[1, 2]),
    (kind::ARG32, "arg32", &[1, 1, 4, 2]),
    (kind::SEQ, "seq", &[1, 4]),
    (kind::IPC_PERM, "ipc_perm", &[1, 4, 4, 4, 4, 4, 4, 4]),
    (kind::NEWGROUPS, "newgroups", &[1, 2, 4, 4, 4]),
    (kind::EXEC_ARGS, "exec_args", &[1, 4]),
    (kind::EXEC_ENV, "exec_env", &[1, 4]),
    (kind::EXIT, "exit", &[1, 4, 4]),
    (kind::ARG64, "arg64", &[1, 1, 8, 2]),
    (kind::RETURN64, "return64", &[1, 1, 8]),
    (
        kind::SUBJECT64,
        "subject64",
        &[1, 4, 4, 4, 4, 4, 4, 4, 8, 4],
    ),
    (
        kind::PROCESS64,
        "process64",
        &[1, 4, 4, 4, 4, 4, 4, 4, 8, 4],
    ),
    (
        kind::SUBJECT32_EX,
        "subject32_ex",
        &[1, 4, 4, 4, 4, 4, 4, 4, 4, 4],
    ),
    (
        kind::PROCESS32_EX,
        "process32_ex",
        &[1, 4, 4, 4, 4, 4, 4, 4, 4, 4],
    ),
    (
        kind::SUBJECT64_EX,
        "subject64_ex",
        &[1, 4, 4, 4, 4, 4, 4, 4, 8, 4],
    ),
    (
        kind::PROCESS64_EX,
        "process64_ex",
        &[1, 4, 4, 4, 4, 4, 4, 4, 8, 4],
    ),
    (kind::IN_ADDR_EX, "in_addr_ex", &[1, 4]),
];

// A port of 8 bytes.
const WIDE: u64 = 0x0102030405060708;

fn party<P>(port: P) -> Party<P> {
    Party {
        audit: 1001,
        effective_user: 0,
        effective_group: 20,
        real_user: 1001,
        real_group: 20,
        process: 4711,
        session: 4294967295,
        port,
        address: 0xC0000201,
    }
}

fn party_ex<P>(port: P) -> PartyEx<P> {
    PartyEx {
        audit: 1001,
        effective_user: 0,
        effective_group: 20,
        real_user: 1001,
        real_group: 20,
        process: 4711,
        session: 4294967295,
        port,
    }
}

fn ip() -> IpHeader {
    IpHeader {
        version: 0x45,
        service: 0,
        length: 60,
        id: 7238,
        offset: 16384,
        ttl: 64,
        protocol: 6,
        checksum: 0xB1E6,
        source: 0xC0000201,
        destination: 0xC6336402,
    }
}

fn permissions() -> Permissions {
    Permissions {
        user: 1,
        group: 2,
        creator_user: 3,
        creator_group: 4,
        mode: 384,
        sequence: 5,
        key: 6,
    }
}

// Writes an expanded token with this number; each length of an address has its turn.
fn write_expanded(number: u8, dst: &mut [u8]) -> Result<usize, Refusal> {
    let long = b"\x20\x01\x0D\xB8\0\0\0\0\0\0\0\0\0\0\0\x01";
    let short = part(long, 0, 4);
    match number {
        kind::SUBJECT32_EX => write_subject32_ex(dst, party_ex(22), short),
        kind::PROCESS32_EX => write_process32_ex(dst, party_ex(22), long),
        kind::SUBJECT64_EX => write_subject64_ex(dst, party_ex(WIDE), long),
        kind::PROCESS64_EX => write_process64_ex(dst, party_ex(WIDE), short),
        _ => write_in_addr_ex(dst, long),
    }
}

// Writes a token with this number: a match, since each kind has a writer of its own that takes other values.
fn write_kind(number: u8, dst: &mut [u8]) -> Result<usize, Refusal> {
    match number {
        kind::PATH => write_path(dst, b"/etc/passwd"),
        kind::SUBJECT32 => write_subject32(dst, party(22)),
        kind::PROCESS32 => write_process32(dst, party(22)),
        kind::RETURN32 => write_return32(dst, 13, 4294967295),
        kind::TEXT => write_text(dst, b""),
        kind::OPAQUE => write_opaque(dst, b"\x13\xB1\x05\0\0\0\x1A"),
        kind::IN_ADDR => write_in_addr(dst, 0xC0000201),
        kind::IP => write_ip(dst, ip()),
        kind::IPORT => write_iport(dst, 443),
        kind::ARG32 => write_arg32(dst, 2, 511, b"mode"),
        kind::SEQ => write_seq(dst, 66),
        kind::IPC_PERM => write_ipc_perm(dst, permissions()),
        kind::NEWGROUPS => write_newgroups(dst, &[0, 20, 4294967295]),
        kind::EXEC_ARGS => write_exec_args(dst, 2, b"ls\0-l\0"),
        kind::EXEC_ENV => write_exec_env(dst, 0, b""),
        kind::EXIT => write_exit(dst, 1, 2),
        kind::ARG64 => write_arg64(dst, 3, 18446744073709551615, b"offset"),
        kind::RETURN64 => write_return64(dst, 0, 256),
        kind::SUBJECT64 => write_subject64(dst, party(WIDE)),
        kind::PROCESS64 => write_process64(dst, party(WIDE)),
        _ => write_expanded(number, dst),
    }
}

// Writes a token of each kind, from the start of a buffer on; answers the place behind the last one.
pub(crate) fn all_tokens(rt: &impl Print, space: &mut [u8]) -> io::Result<usize>
    ensures ok { IfOk result (λ at. at ≤ length space.new) }
    ensures err { OnErr result (length space.new ≡ length space.old) }
{
    let mut at = 0;
    for (number, name, widths) in TOKENS {
        let layout = Layout {
            name,
            widths,
            trailer: 0,
        };
        let end = put(rt, space, at, layout, |dst| write_kind(number, dst))?;
        let body = part(space, 0, end);
        println!(rt; "  read{}", TokenAt { body, at })?;
        at = end;
    }
    Ok(at)
}
