use super::*;

#[derive(Drop)]
enum Step {
    Refusal(u64, Option<BeginRefused>),
    Begin(u64, Result<u64, BeginRefused>),
    Finish(u64, bool, u64),
    GiveUp(u64),
    StartOf(u64, Option<u64>),
    Mark(u64),
    Clock(u64),
    Count(u64),
}

// Makes the step, and says whether it gave what the table wants.
fn gives(active: &mut Active, step: &Step) -> bool {
    match step {
        Step::Refusal(caller, want) => active.refusal(*caller) == *want,
        Step::Begin(caller, want) => active.begin(*caller) == *want,
        Step::Finish(caller, wrote, want) => {
            active.start_of(*caller).is_some() && active.finish(*caller, *wrote) == *want
        }
        Step::GiveUp(caller) => {
            if active.start_of(*caller).is_none() {
                return false;
            }
            active.give_up(*caller);
            active.start_of(*caller).is_none()
        }
        Step::StartOf(caller, want) => active.start_of(*caller) == *want,
        Step::Mark(want) => active.mark() == *want,
        Step::Clock(want) => active.clock() == *want,
        Step::Count(want) => active.count() == *want,
    }
}

#[test]
fn transactions_in_turn(rt: HostRuntime) {
    let mut active = Active::new(rt.alloc(), 1);
    let steps = [
        Step::Mark(1),
        Step::Begin(1, Ok(1)),
        Step::Begin(2, Ok(2)),
        Step::Mark(1),
        Step::Count(2),
        Step::Refusal(1, Some(BeginRefused::AlreadyOpen)),
        Step::Refusal(3, None),
        Step::Begin(1, Err(BeginRefused::AlreadyOpen)),
        Step::Finish(1, true, 3),
        Step::Mark(2),
        Step::Clock(4),
        Step::StartOf(1, None),
        Step::StartOf(2, Some(2)),
        Step::Begin(1, Ok(4)),
        Step::Begin(3, Ok(5)),
        Step::Finish(2, false, 2),
        Step::Clock(6),
        Step::Mark(4),
        Step::GiveUp(1),
        Step::Mark(5),
        Step::Finish(3, true, 6),
        Step::Mark(7),
        Step::Count(0),
    ];
    for (i, step) in steps.iter().enumerate() {
        assert!(rt; gives(&mut active, step), "at {i}");
    }
}

#[test]
fn end_of_the_clock(rt: HostRuntime) {
    let mut active = Active::new(rt.alloc(), (1 << 62) - 2);
    let steps = [
        Step::Begin(1, Ok((1 << 62) - 2)),
        Step::Begin(2, Err(BeginRefused::ClockEnd)),
        Step::Finish(1, true, (1 << 62) - 1),
        Step::Clock(1 << 62),
        Step::Begin(1, Err(BeginRefused::ClockEnd)),
        Step::Mark(1 << 62),
    ];
    for (i, step) in steps.iter().enumerate() {
        assert!(rt; gives(&mut active, step), "at {i}");
    }
}

#[test]
fn too_many_open(rt: HostRuntime) {
    let mut active = Active::new(rt.alloc(), 1);
    for caller in 0..1024 {
        assert!(rt; active.begin(caller) == Ok(caller + 1), "at {caller}");
    }
    assert!(rt; active.begin(1024) == Err(BeginRefused::TooMany));
    assert!(rt; active.begin(7) == Err(BeginRefused::AlreadyOpen));
    assert_eq!(rt; active.count(), 1024);
}

#[test]
fn rivals(rt: HostRuntime) {
    let cases = [
        (5, None, None, None),
        (5, None, Some(5), None),
        (5, None, Some(4), None),
        (5, None, Some(6), Some(Rival::Committed { ts: 6 })),
        (5, Some(3), None, Some(Rival::Running { start: 3 })),
        (5, Some(7), Some(6), Some(Rival::Running { start: 7 })),
    ];
    for (start, other_writer, newest_commit, want) in cases {
        assert!(rt;
            rival(start, other_writer, newest_commit) == want,
            "at {start}"
        );
    }
}
