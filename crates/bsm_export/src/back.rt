// The record before a place of a trail.
ghost use Rattle.std.specs.Prelude.{◌≡◌};
ghost use Rattle.bsm_back.specs.Back.{record_before};
ghost use Rattle.bsm_back.specs.Meaning.{located_back};
ghost use Rattle.bsm_export.specs.Back.{flat_back};

use crate::item::{BsmItem, no_item};
use bsm_back::back::{Before, record_before};
use bsm_token::refusal::Refusal;

// A step back: `item` has kind 2 for a record, 4 for a boundary, whose need is the item's, and 3 for a refusal. `place` is where the step
// led: the record's start, or the place it was asked for.
#[repr(C)]
#[derive(Clone, Copy)]
pub struct BsmBefore {
    pub item: BsmItem,
    pub place: u64,
}

// As `found` of the index, another struct for C.
fn before(item: BsmItem, place: usize) -> BsmBefore
    ensures { result ≡ record { item = item; place = place } }
{
    BsmBefore {
        item,
        place: place as u64,
    }
}

// The record that ends at a place of a trail.
#[unsafe(no_mangle)]
pub extern "C" fn bsm_record_before(trail: &[u8], place: usize) -> BsmBefore
    ensures { result ≡ flat_back place (located_back (record_before trail.now place)) }
{
    match record_before(trail, place) {
        Ok(Before::Record { item, place: start }) => before(item.into(), start),
        Ok(Before::Boundary { need }) => before(
            no_item(
                4,
                Refusal {
                    number: 0,
                    place: 0,
                    need,
                },
            ),
            place,
        ),
        Err(f) => before(no_item(3, f), place),
    }
}
