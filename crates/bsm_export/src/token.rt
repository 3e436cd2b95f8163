// The token at a place of a body, where its text stands, and the tokens of a body.
ghost use Rattle.std.specs.Prelude.{◌≡◌};
ghost use Rattle.bsm_token.specs.Token.{string_of, string_start, token_at, walk};
ghost use Rattle.bsm_token.specs.Flat.{flat_token};
ghost use Rattle.bsm_export.specs.Items.{PartTold};
ghost use Rattle.bsm_export.specs.Written.{flat_walk};

use crate::answer::{BsmWritten, answer_of, no_refusal};
use crate::item::BsmPart;
use bsm_token::body::walk_body;
use bsm_token::flat::{FlatToken, flat_at};
use bsm_token::text::has_string;

// The answer at a place of a body: `kind` is 0 at the end, 1 for a token, 3 for a refusal.
#[unsafe(no_mangle)]
pub extern "C" fn bsm_token_at(body: &[u8], place: usize) -> FlatToken
    ensures { result ≡ flat_token (token_at body.now place) }
{
    flat_at(body, place)
}

// Where the string of the path or text token at a place stands, without its zero byte. It asks `bsm_token_at`, so that `flat_at` has
// one caller and is compiled into it.
#[unsafe(no_mangle)]
pub extern "C" fn bsm_text_at(body: &[u8], place: usize) -> BsmPart
    ensures { PartTold body.now (string_of (token_at body.now place)) (string_start (token_at body.now place)) result }
{
    let t = bsm_token_at(body, place);
    if has_string(t.token) {
        BsmPart {
            start: t.start,
            length: t.length,
        }
    } else {
        BsmPart {
            start: 0,
            length: 0,
        }
    }
}

// How many tokens a body has, or the first refusal.
#[unsafe(no_mangle)]
pub extern "C" fn bsm_walk_body(body: &[u8]) -> BsmWritten
    ensures { result ≡ flat_walk (walk body.now) }
{
    match walk_body(body) {
        Ok(n) => answer_of(n, no_refusal()),
        Err(f) => answer_of(0, f),
    }
}
