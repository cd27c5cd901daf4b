//! Where the clock, the ids and the places for open transactions end.
use front_core::{Core, NoMemory};
use std::alloc::Global;
use std::test::Fail;
use undo_delta::Ask;
use world_model::{Answer, Event, Refused};

/// What a caller asks for in one step.
#[derive(Clone, Copy)]
enum Step {
    Begin,
    CreateVertex,
    Commit,
}

/// What an answer tells.
#[derive(Clone, Copy, PartialEq, Eq)]
enum Told {
    /// The start of a transaction, or the timestamp of a commit.
    Instant(u64),
    Refused(Refused),
    Other,
}

/// A caller, what it asks for, and what the answer tells.
type Row = (u64, Step, Told);

static CLOCK: [Row; 5] = [
    (1, Step::Begin, Told::Instant((1 << 62) - 2)),
    (2, Step::Begin, Told::Refused(Refused::ClockEnd)),
    (1, Step::CreateVertex, Told::Other),
    (1, Step::Commit, Told::Instant((1 << 62) - 1)),
    (1, Step::Begin, Told::Refused(Refused::ClockEnd)),
];

static IDS: [Row; 2] = [
    (1, Step::Begin, Told::Instant(1)),
    (1, Step::CreateVertex, Told::Refused(Refused::IdEnd)),
];

static PLACES: [Row; 1] = [(1024, Step::Begin, Told::Refused(Refused::TooMany))];

fn tell(answer: &Answer) -> Told {
    match answer {
        Answer::Begun(start) => Told::Instant(*start),
        Answer::Committed(ts) => Told::Instant(*ts),
        Answer::Refused(why) => Told::Refused(*why),
        _ => Told::Other,
    }
}

fn answered(alloc: Global, core: &mut Core, caller: u64, step: Step) -> Told {
    let answer = match step {
        Step::Begin => core.step(alloc, caller, Event::Begin),
        Step::CreateVertex => core.step(alloc, caller, Event::Write(Ask::CreateVertex)),
        Step::Commit => core.step(alloc, caller, Event::Commit),
    };
    tell(&answer)
}

/// Whether the store answers the rows so, one behind the other.
fn are_told(alloc: Global, core: &mut Core, rows: &[Row]) -> bool {
    for (caller, step, wanted) in rows {
        if answered(alloc, core, *caller, *step) != *wanted {
            return false;
        }
    }
    true
}

/// Whether 1024 callers may have a transaction open at once.
fn all_begin(alloc: Global, core: &mut Core) -> bool {
    for caller in 0..1024 {
        if answered(alloc, core, caller, Step::Begin) != Told::Instant(caller + 1) {
            return false;
        }
    }
    true
}

fn clock_ends(alloc: Global) -> Result<bool, NoMemory> {
    let mut core = Core::new_at(alloc, 16, (1 << 62) - 2, 0, 0)?;
    Ok(are_told(alloc, &mut core, &CLOCK))
}

fn ids_end(alloc: Global) -> Result<bool, NoMemory> {
    let mut core = Core::new_at(alloc, 16, 1, 1 << 62, 0)?;
    Ok(are_told(alloc, &mut core, &IDS))
}

fn places_end(alloc: Global) -> Result<bool, NoMemory> {
    let mut core = Core::new(alloc, 16)?;
    Ok(all_begin(alloc, &mut core) && are_told(alloc, &mut core, &PLACES))
}

#[test]
fn a_clock_at_its_end_serves_what_is_open(rt: HostRuntime) -> Result<(), Fail> {
    assert!(rt; clock_ends(rt.alloc())?);
    Ok(())
}

#[test]
fn no_id_is_left_at_the_end(rt: HostRuntime) -> Result<(), Fail> {
    assert!(rt; ids_end(rt.alloc())?);
    Ok(())
}

#[test]
fn so_many_may_be_open_and_no_more(rt: HostRuntime) -> Result<(), Fail> {
    assert!(rt; places_end(rt.alloc())?);
    Ok(())
}
