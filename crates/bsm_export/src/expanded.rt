// Writers of expanded tokens: their addresses come as bytes.
#![tactic(auto, using(crate::proofs::Answers::exported))]

ghost use Rattle.std.specs.Prelude.{[], ◌∷◌};
ghost use Rattle.bsm_token.specs.Names.{in_addr_ex_token, process32_ex_token, process64_ex_token, subject32_ex_token, subject64_ex_token};
ghost use Rattle.bsm_draft.specs.Given.{an_address, token_draft};
ghost use Rattle.bsm_export.specs.Written.{Exported};

use crate::answer::BsmWritten;
use bsm_token::kind::PartyEx;
use bsm_write::expanded::{
    write_in_addr_ex, write_process32_ex, write_process64_ex, write_subject32_ex,
    write_subject64_ex,
};

#[unsafe(no_mangle)]
pub extern "C" fn bsm_write_subject32_ex(
    dst: &mut [u8],
    audit: u32,
    effective_user: u32,
    effective_group: u32,
    real_user: u32,
    real_group: u32,
    process: u32,
    session: u32,
    port: u32,
    address: &[u8],
) -> BsmWritten
    ensures { Exported (token_draft subject32_ex_token (audit ∷ effective_user ∷ effective_group ∷ real_user ∷ real_group ∷ process ∷ session ∷ port ∷ []) (an_address address.now)) dst.old dst.new result }
{
    write_subject32_ex(
        dst,
        PartyEx {
            audit,
            effective_user,
            effective_group,
            real_user,
            real_group,
            process,
            session,
            port,
        },
        address,
    )
    .into()
}

#[unsafe(no_mangle)]
pub extern "C" fn bsm_write_process32_ex(
    dst: &mut [u8],
    audit: u32,
    effective_user: u32,
    effective_group: u32,
    real_user: u32,
    real_group: u32,
    process: u32,
    session: u32,
    port: u32,
    address: &[u8],
) -> BsmWritten
    ensures { Exported (token_draft process32_ex_token (audit ∷ effective_user ∷ effective_group ∷ real_user ∷ real_group ∷ process ∷ session ∷ port ∷ []) (an_address address.now)) dst.old dst.new result }
{
    write_process32_ex(
        dst,
        PartyEx {
            audit,
            effective_user,
            effective_group,
            real_user,
            real_group,
            process,
            session,
            port,
        },
        address,
    )
    .into()
}

#[unsafe(no_mangle)]
pub extern "C" fn bsm_write_subject64_ex(
    dst: &mut [u8],
    audit: u32,
    effective_user: u32,
    effective_group: u32,
    real_user: u32,
    real_group: u32,
    process: u32,
    session: u32,
    port: u64,
    address: &[u8],
) -> BsmWritten
    ensures { Exported (token_draft subject64_ex_token (audit ∷ effective_user ∷ effective_group ∷ real_user ∷ real_group ∷ process ∷ session ∷ port ∷ []) (an_address address.now)) dst.old dst.new result }
{
    write_subject64_ex(
        dst,
        PartyEx {
            audit,
            effective_user,
            effective_group,
            real_user,
            real_group,
            process,
            session,
            port,
        },
        address,
    )
    .into()
}

#[unsafe(no_mangle)]
pub extern "C" fn bsm_write_process64_ex(
    dst: &mut [u8],
    audit: u32,
    effective_user: u32,
    effective_group: u32,
    real_user: u32,
    real_group: u32,
    process: u32,
    session: u32,
    port: u64,
    address: &[u8],
) -> BsmWritten
    ensures { Exported (token_draft process64_ex_token (audit ∷ effective_user ∷ effective_group ∷ real_user ∷ real_group ∷ process ∷ session ∷ port ∷ []) (an_address address.now)) dst.old dst.new result }
{
    write_process64_ex(
        dst,
        PartyEx {
            audit,
            effective_user,
            effective_group,
            real_user,
            real_group,
            process,
            session,
            port,
        },
        address,
    )
    .into()
}

#[unsafe(no_mangle)]
pub extern "C" fn bsm_write_in_addr_ex(dst: &mut [u8], address: &[u8]) -> BsmWritten
    ensures { Exported (token_draft in_addr_ex_token [] (an_address address.now)) dst.old dst.new result }
{
    write_in_addr_ex(dst, address).into()
}
