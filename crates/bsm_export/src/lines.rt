// The lines of a listing one by one, and as many of them as fit.
ghost use Rattle.std.specs.Prelude.{◌≡◌, length};
ghost use Rattle.bsm_item.specs.Reading.{plain, stop_of};
ghost use Rattle.bsm_item.specs.Meaning.{state_meant};
ghost use Rattle.bsm_bytes.specs.Write.{code};
ghost use Rattle.bsm_listing.specs.Line.{first_line};
ghost use Rattle.bsm_listing.specs.Listing.{lines_of};
ghost use Rattle.bsm_listing.specs.Meaning.{cursor_meant};
ghost use Rattle.bsm_export.specs.Items.{state_at};
ghost use Rattle.bsm_export.specs.Written.{Exported};
ghost use Rattle.bsm_export.specs.Lines.{ItemLined, last_draft, cursor_from, flat_listing, PartListed};

use crate::answer::{BsmWritten, answer_of, no_refusal};
use crate::state::run_from;
use bsm_item::read::item_at;
use bsm_item::state::State;
use bsm_listing::line::{first_line, item_line, last_line};
use bsm_listing::listing::{Cursor, Listing, list_part};

// Which line comes next and how many bytes of lines were written: `stage` is 0 for the first line, 1 for the line at the state, 2
// behind the last one. Without a state its numbers are 0.
#[repr(C)]
#[derive(Clone, Copy)]
pub struct BsmListing {
    pub stage: u64,
    pub place: u64,
    pub records: u64,
    pub files: u64,
    pub written: u64,
}

// The first line.
#[unsafe(no_mangle)]
pub extern "C" fn bsm_first_line(dst: &mut [u8]) -> BsmWritten
    ensures { Exported (code first_line) dst.old dst.new result }
{
    first_line(dst).into()
}

// The line of the item at a place; where there is none, its answer and no line.
#[unsafe(no_mangle)]
pub extern "C" fn bsm_item_line(dst: &mut [u8], trail: &[u8], place: usize) -> BsmWritten
    ensures { ItemLined trail.now place dst.old dst.new result }
{
    match item_at(trail, place) {
        Ok(Some(item)) => item_line(dst, place, item).into(),
        Ok(None) => answer_of(0, no_refusal()),
        Err(f) => answer_of(0, f),
    }
}

// The last line of the run from a state.
#[unsafe(no_mangle)]
pub extern "C" fn bsm_last_line(
    dst: &mut [u8],
    trail: &[u8],
    place: usize,
    records: usize,
    files: usize,
) -> BsmWritten
    ensures { Exported (last_draft (stop_of (plain trail.now (state_at place records files)))) dst.old dst.new result }
{
    last_line(dst, run_from(trail, place, records, files)).into()
}

// The cursor of a stage: no `From`, since a state goes with it.
fn cursor_of(stage: u64, state: State) -> Cursor
    ensures { cursor_meant result ≡ cursor_from stage (state_meant state) }
{
    match stage {
        0 => Cursor::First,
        1 => Cursor::At(state),
        _ => Cursor::Done,
    }
}

fn listing(stage: u64, state: State, written: usize) -> BsmListing
    ensures { result ≡ record { stage = stage; place = state.place; records = state.records; files = state.files; written = written } }
{
    BsmListing {
        stage,
        place: state.place as u64,
        records: state.records as u64,
        files: state.files as u64,
        written: written as u64,
    }
}

// The answer of a call that listed a part.
impl From<Listing> for BsmListing {
    ghost from_gives = { λ l r. r ≡ flat_listing (cursor_meant l.cursor) l.written };

    fn from(l: Listing) -> BsmListing {
        let cursor = l.cursor;
        match cursor {
            Cursor::First => listing(0, State::fresh(), l.written),
            Cursor::At(state) => listing(1, state, l.written),
            Cursor::Done => listing(2, State::fresh(), l.written),
        }
    }
}

// As many whole lines as fit, from a stage on.
#[unsafe(no_mangle)]
pub extern "C" fn bsm_list(
    out: &mut [u8],
    trail: &[u8],
    stage: u64,
    place: usize,
    records: usize,
    files: usize,
) -> BsmListing
    ensures { PartListed (lines_of trail.now (length out.old) (cursor_from stage (state_at place records files))) out.old out.new result }
{
    let state = State {
        place,
        records,
        files,
    };
    list_part(trail, cursor_of(stage, state), out).into()
}
