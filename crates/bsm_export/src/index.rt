// An index of places, and a record by its number.
ghost use Rattle.std.specs.Prelude.{◌≡◌};
ghost use Rattle.bsm_index.specs.Fill.{fill_of};
ghost use Rattle.bsm_index.specs.Find.{find_record};
ghost use Rattle.bsm_index.specs.Meaning.{found_at};
ghost use Rattle.bsm_export.specs.Items.{state_at};
ghost use Rattle.bsm_export.specs.Index.{FillTold, found_numbers};

use crate::answer::no_refusal;
use crate::item::{BsmItem, no_item};
use crate::state::{BsmOutcome, run_numbers};
use bsm_index::fill::fill;
use bsm_index::find::find_record;
use bsm_item::state::State;

// What a fill came to: the run or its refusal, and how many entries all records up to the run's end have.
#[repr(C)]
#[derive(Clone, Copy)]
pub struct BsmFilled {
    pub run: BsmOutcome,
    pub count: u64,
}

// A record and its place: `item` has kind 2. Where there is none it has kind 0 or 3, and the place is 0.
#[repr(C)]
#[derive(Clone, Copy)]
pub struct BsmFound {
    pub item: BsmItem,
    pub place: u64,
}

// Fills a table with the places of records 0, 64, 128 and so on, as far as they are read from a state on.
#[unsafe(no_mangle)]
pub extern "C" fn bsm_fill_index(
    trail: &[u8],
    place: usize,
    records: usize,
    files: usize,
    table: &mut [u64],
) -> BsmFilled
    ensures { FillTold (fill_of trail.now (state_at place records files) table.old) table.new result }
{
    let state = State {
        place,
        records,
        files,
    };
    let filled = fill(trail, state, table);
    BsmFilled {
        run: run_numbers(filled.run),
        count: filled.count as u64,
    }
}

// A record's item and place: each struct for C is made by a function of its own.
fn found(item: BsmItem, place: usize) -> BsmFound
    ensures { result ≡ record { item = item; place = place } }
{
    BsmFound {
        item,
        place: place as u64,
    }
}

// Record n of a trail, counted from 0, by a table and a count of its filled entries.
#[unsafe(no_mangle)]
pub extern "C" fn bsm_find_record(trail: &[u8], table: &[u64], count: usize, n: usize) -> BsmFound
    ensures { result ≡ found_numbers (found_at (find_record trail.now table.now count n)) }
{
    match find_record(trail, table, count, n) {
        Ok(Some(record)) => found(record.item.into(), record.place),
        Ok(None) => found(no_item(0, no_refusal()), 0),
        Err(f) => found(no_item(3, f), 0),
    }
}
