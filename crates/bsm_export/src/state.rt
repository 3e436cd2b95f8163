// One step from a reading state, and the run from it.
ghost use Rattle.std.specs.Prelude.{◌≡◌};
ghost use Rattle.bsm_item.specs.Reading.{plain, stop_of};
ghost use Rattle.bsm_item.specs.Meaning.{state_meant, step_at, run_meant};
ghost use Rattle.bsm_export.specs.Items.{state_at, step_with, outcome_with, flat_step, flat_outcome};

use crate::answer::no_refusal;
use crate::item::{BsmItem, no_item};
use bsm_item::state::{Run, State};
use bsm_token::refusal::Refusal;

// The answer at a state, and the state after it: only an item moves it.
#[repr(C)]
#[derive(Clone, Copy)]
pub struct BsmStep {
    pub item: BsmItem,
    pub place: u64,
    pub records: u64,
    pub files: u64,
}

// The state at which a run stopped, and the refusal there, zeros at the end.
#[repr(C)]
#[derive(Clone, Copy)]
pub struct BsmOutcome {
    pub place: u64,
    pub records: u64,
    pub files: u64,
    pub number: u64,
    pub at: u64,
    pub need: u64,
}

fn step(item: BsmItem, state: State) -> BsmStep
    ensures { result ≡ step_with item (state_meant state) }
{
    BsmStep {
        item,
        place: state.place as u64,
        records: state.records as u64,
        files: state.files as u64,
    }
}

fn outcome(last: State, f: Refusal) -> BsmOutcome
    ensures { result ≡ outcome_with (state_meant last) f.number f.place f.need }
{
    BsmOutcome {
        place: last.place as u64,
        records: last.records as u64,
        files: last.files as u64,
        number: f.number as u64,
        at: f.place as u64,
        need: f.need as u64,
    }
}

// A run as numbers. A function and no `From`: with it the compiler ordered the library's functions in another way, and a call stood inside the
// walk over tokens.
pub(crate) fn run_numbers(run: Run) -> BsmOutcome
    ensures { result ≡ flat_outcome (run_meant run) }
{
    let last = run.state;
    let ending = run.ending;
    match ending {
        Ok(()) => outcome(last, no_refusal()),
        Err(f) => outcome(last, f),
    }
}

// The answer at a state of a trail, and the state after it.
#[unsafe(no_mangle)]
pub extern "C" fn bsm_next(trail: &[u8], place: usize, records: usize, files: usize) -> BsmStep
    ensures { result ≡ flat_step (step_at trail.now (state_at place records files)) }
{
    let state = State {
        place,
        records,
        files,
    };
    match state.next(trail) {
        Ok(Some((item, after))) => step(item.into(), after),
        Ok(None) => step(no_item(0, no_refusal()), state),
        Err(f) => step(no_item(3, f), state),
    }
}

// The run from a state.
pub(crate) fn run_from(trail: &[u8], place: usize, records: usize, files: usize) -> Run
    ensures { run_meant result ≡ stop_of (plain trail.now (state_at place records files)) }
{
    let state = State {
        place,
        records,
        files,
    };
    state.run(trail)
}

// Reads items from a state on until none stands there.
#[unsafe(no_mangle)]
pub extern "C" fn bsm_run(trail: &[u8], place: usize, records: usize, files: usize) -> BsmOutcome
    ensures { result ≡ flat_outcome (stop_of (plain trail.now (state_at place records files))) }
{
    run_numbers(run_from(trail, place, records, files))
}
