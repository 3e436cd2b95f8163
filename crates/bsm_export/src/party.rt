// Writers of subject and process tokens, the port of 4 or of 8 bytes.
#![tactic(auto, using(crate::proofs::Answers::exported))]

ghost use Rattle.std.specs.Prelude.{[], ◌∷◌};
ghost use Rattle.bsm_token.specs.Names.{process32_token, process64_token, subject32_token, subject64_token};
ghost use Rattle.bsm_draft.specs.Given.{nothing, token_draft};
ghost use Rattle.bsm_export.specs.Written.{Exported};

use crate::answer::BsmWritten;
use bsm_token::kind::Party;
use bsm_write::simple::{write_process32, write_process64, write_subject32, write_subject64};

#[unsafe(no_mangle)]
pub extern "C" fn bsm_write_subject32(
    dst: &mut [u8],
    audit: u32,
    effective_user: u32,
    effective_group: u32,
    real_user: u32,
    real_group: u32,
    process: u32,
    session: u32,
    port: u32,
    address: u32,
) -> BsmWritten
    ensures { Exported (token_draft subject32_token (audit ∷ effective_user ∷ effective_group ∷ real_user ∷ real_group ∷ process ∷ session ∷ port ∷ address ∷ []) nothing) dst.old dst.new result }
{
    write_subject32(
        dst,
        Party {
            audit,
            effective_user,
            effective_group,
            real_user,
            real_group,
            process,
            session,
            port,
            address,
        },
    )
    .into()
}

#[unsafe(no_mangle)]
pub extern "C" fn bsm_write_process32(
    dst: &mut [u8],
    audit: u32,
    effective_user: u32,
    effective_group: u32,
    real_user: u32,
    real_group: u32,
    process: u32,
    session: u32,
    port: u32,
    address: u32,
) -> BsmWritten
    ensures { Exported (token_draft process32_token (audit ∷ effective_user ∷ effective_group ∷ real_user ∷ real_group ∷ process ∷ session ∷ port ∷ address ∷ []) nothing) dst.old dst.new result }
{
    write_process32(
        dst,
        Party {
            audit,
            effective_user,
            effective_group,
            real_user,
            real_group,
            process,
            session,
            port,
            address,
        },
    )
    .into()
}

#[unsafe(no_mangle)]
pub extern "C" fn bsm_write_subject64(
    dst: &mut [u8],
    audit: u32,
    effective_user: u32,
    effective_group: u32,
    real_user: u32,
    real_group: u32,
    process: u32,
    session: u32,
    port: u64,
    address: u32,
) -> BsmWritten
    ensures { Exported (token_draft subject64_token (audit ∷ effective_user ∷ effective_group ∷ real_user ∷ real_group ∷ process ∷ session ∷ port ∷ address ∷ []) nothing) dst.old dst.new result }
{
    write_subject64(
        dst,
        Party {
            audit,
            effective_user,
            effective_group,
            real_user,
            real_group,
            process,
            session,
            port,
            address,
        },
    )
    .into()
}

#[unsafe(no_mangle)]
pub extern "C" fn bsm_write_process64(
    dst: &mut [u8],
    audit: u32,
    effective_user: u32,
    effective_group: u32,
    real_user: u32,
    real_group: u32,
    process: u32,
    session: u32,
    port: u64,
    address: u32,
) -> BsmWritten
    ensures { Exported (token_draft process64_token (audit ∷ effective_user ∷ effective_group ∷ real_user ∷ real_group ∷ process ∷ session ∷ port ∷ address ∷ []) nothing) dst.old dst.new result }
{
    write_process64(
        dst,
        Party {
            audit,
            effective_user,
            effective_group,
            real_user,
            real_group,
            process,
            session,
            port,
            address,
        },
    )
    .into()
}
