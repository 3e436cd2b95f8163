// Printing what the readers answer.
use crate::print::Hex;
use bsm_item::item::Item;
use bsm_item::read::{address_of, body_of, item_at, name_of};
use bsm_kinds::token::{Token, token_at};
use bsm_token::kind::{IpHeader, Party, PartyEx, Permissions};
use bsm_token::part::part;
use bsm_token::refusal::Refusal;
use std::fmt;
use std::fmt::Display;

#[derive(Clone, Copy)]
pub(crate) struct Refused(pub(crate) Refusal);

impl Display for Refused {
    fn fmt<W: fmt::Write>(&self, f: &mut fmt::Formatter<W>) -> fmt::Result {
        let Refusal {
            number,
            place,
            need,
        } = self.0;
        write!(f, "refused {number} {place} {need}")
    }
}

// The fields of a token, or of a struct in it, in the order of its layout.
#[derive(Clone, Copy)]
struct Fields<T>(T);

impl<P: Display + Copy> Display for Fields<Party<P>> {
    fn fmt<W: fmt::Write>(&self, f: &mut fmt::Formatter<W>) -> fmt::Result {
        let p = self.0;
        write!(f, " {} {} {}", p.audit, p.effective_user, p.effective_group)?;
        write!(f, " {} {} {}", p.real_user, p.real_group, p.process)?;
        write!(f, " {} {} {}", p.session, p.port, p.address)
    }
}

impl<P: Display + Copy> Display for Fields<PartyEx<P>> {
    fn fmt<W: fmt::Write>(&self, f: &mut fmt::Formatter<W>) -> fmt::Result {
        let p = self.0;
        write!(f, " {} {} {}", p.audit, p.effective_user, p.effective_group)?;
        write!(f, " {} {} {}", p.real_user, p.real_group, p.process)?;
        write!(f, " {} {}", p.session, p.port)
    }
}

impl Display for Fields<IpHeader> {
    fn fmt<W: fmt::Write>(&self, f: &mut fmt::Formatter<W>) -> fmt::Result {
        let h = self.0;
        write!(f, " {} {} {}", h.version, h.service, h.length)?;
        write!(f, " {} {} {}", h.id, h.offset, h.ttl)?;
        write!(f, " {} {}", h.protocol, h.checksum)?;
        write!(f, " {} {}", h.source, h.destination)
    }
}

impl Display for Fields<Permissions> {
    fn fmt<W: fmt::Write>(&self, f: &mut fmt::Formatter<W>) -> fmt::Result {
        let p = self.0;
        write!(f, " {} {}", p.user, p.group)?;
        write!(f, " {} {}", p.creator_user, p.creator_group)?;
        write!(f, " {} {} {}", p.mode, p.sequence, p.key)
    }
}

impl Display for Fields<Token> {
    fn fmt<W: fmt::Write>(&self, f: &mut fmt::Formatter<W>) -> fmt::Result {
        match self.0 {
            Token::Path { length } | Token::Text { length } | Token::Opaque { length } => write!(
                f,
                " {length}"
            ),
            Token::Subject32(p) | Token::Process32(p) => write!(f, "{}", Fields(p)),
            Token::Return32 { error, value } => write!(f, " {error} {value}"),
            Token::InAddr(address) => write!(f, " {address}"),
            Token::Ip(h) => write!(f, "{}", Fields(h)),
            Token::Iport(port) => write!(f, " {port}"),
            Token::Arg32 {
                argument,
                value,
                length,
            } => write!(f, " {argument} {value} {length}"),
            Token::Seq(sequence) => write!(f, " {sequence}"),
            Token::IpcPerm(p) => write!(f, "{}", Fields(p)),
            Token::Newgroups { count } => write!(f, " {count}"),
            Token::ExecArgs { count } | Token::ExecEnv { count } => write!(f, " {count}"),
            Token::Exit { status, value } => write!(f, " {status} {value}"),
            Token::Arg64 {
                argument,
                value,
                length,
            } => write!(f, " {argument} {value} {length}"),
            Token::Return64 { error, value } => write!(f, " {error} {value}"),
            Token::Subject64(p) | Token::Process64(p) => write!(f, "{}", Fields(p)),
            Token::Subject32Ex { party, length } | Token::Process32Ex { party, length } => write!(
                f,
                "{} {length}",
                Fields(party)
            ),
            Token::Subject64Ex { party, length } | Token::Process64Ex { party, length } => write!(
                f,
                "{} {length}",
                Fields(party)
            ),
            Token::InAddrEx { length } => write!(f, " {length}"),
        }
    }
}

// The token at a place of a body: its size, its fields, and its text, bytes, groups, strings or address.
#[derive(Clone, Copy)]
pub(crate) struct TokenAt<'a> {
    pub(crate) body: &'a [u8],
    pub(crate) at: usize,
}

impl<'a> Display for TokenAt<'a> {
    fn fmt<W: fmt::Write>(&self, f: &mut fmt::Formatter<W>) -> fmt::Result {
        match token_at(self.body, self.at) {
            Ok(Some(found)) => {
                let bytes = part(self.body, found.start, found.length);
                write!(f, " {}:{}{}", found.size, Fields(found.token), Hex(bytes))
            }
            Ok(None) => write!(f, " end"),
            Err(refusal) => write!(f, "{}", Refused(refusal)),
        }
    }
}

// The item at a place of a trail: its size, its fields, and its name or how many tokens and bytes its body has.
#[derive(Clone, Copy)]
pub(crate) struct ItemAt<'a> {
    pub(crate) trail: &'a [u8],
    pub(crate) place: usize,
}

#[derive(Clone, Copy)]
struct ItemFound<'a> {
    trail: &'a [u8],
    item: Item,
}

impl<'a> Display for ItemFound<'a> {
    fn fmt<W: fmt::Write>(&self, f: &mut fmt::Formatter<W>) -> fmt::Result {
        let (trail, item) = (self.trail, self.item);
        match item {
            Item::File {
                size,
                seconds,
                microseconds,
                ..
            } => write!(
                f,
                " {size}: {seconds} {microseconds}{}",
                Hex(name_of(trail, item))
            ),
            Item::Record {
                size,
                header: h,
                tokens,
                ..
            } => {
                write!(f, " {size}: {} {} {}", h.version, h.event, h.modifier)?;
                write!(
                    f,
                    "{} {} {}",
                    Hex(address_of(trail, item)),
                    h.seconds,
                    h.nanoseconds
                )?;
                write!(f, ", tokens {tokens} {}", body_of(trail, item).len())
            }
        }
    }
}

impl<'a> Display for ItemAt<'a> {
    fn fmt<W: fmt::Write>(&self, f: &mut fmt::Formatter<W>) -> fmt::Result {
        let trail = self.trail;
        match item_at(trail, self.place) {
            Ok(Some(item)) => write!(f, "{}", ItemFound { trail, item }),
            Ok(None) => write!(f, " end"),
            Err(refusal) => write!(f, "{}", Refused(refusal)),
        }
    }
}
