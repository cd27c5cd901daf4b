//! Somebody else moves deltas between a lift and its installation.
use crate::graph::{Act, Deed, Write, are_done};
use collector::{Progress, Sweep, Swept, sweep_all};
use front_core::Core;
use graph_value::{Oid, VertexId};
use std::alloc::Global;
use std::test::Fail;
use store_pass::Solo;
use world_model::{GraphStore, InstallRefused, Piece};

/// Two vertices, with two deltas and with one.
static MADE: [Act; 5] = [
    (1, Deed::Begin),
    (1, Deed::Write(Write::Vertex)),
    (1, Deed::Write(Write::Vertex)),
    (1, Deed::Write(Write::Set(0, 1))),
    (1, Deed::Commit),
];

/// What the steps of a sweep tell that another one overtakes between its first lift and the installation, and what the
/// other one tells.
fn overtaken<S: GraphStore>(
    rt: &S::Rt,
    alloc: Global,
    store: &mut S,
) -> ([Option<Progress>; 6], Option<Swept>) {
    let mut sweep = Sweep::new();
    let marked = sweep.advance(rt, alloc, store).ok();
    let lifted = sweep.advance(rt, alloc, store).ok();
    let other = sweep_all(rt, alloc, store).ok();
    let stale = sweep.advance(rt, alloc, store).ok();
    let next = sweep.advance(rt, alloc, store).ok();
    let end = sweep.advance(rt, alloc, store).ok();
    let again = sweep.advance(rt, alloc, store).ok();
    ([marked, lifted, stale, next, end, again], other)
}

/// The cut of an object that somebody else was faster at.
fn cut(told: Result<(), InstallRefused>) -> Option<u64> {
    match told {
        Err(InstallRefused::Stale { cut }) => Some(cut),
        _ => None,
    }
}

/// Whether a piece is installed, and the cut that an older one is told.
fn installed_twice<S: GraphStore>(
    rt: &S::Rt,
    alloc: Global,
    store: &mut S,
    x: Oid,
) -> Option<(bool, Option<u64>)> {
    let Ok(older) = store.lift(rt, alloc, x) else {
        return None;
    };
    let Ok(newer) = store.lift(rt, alloc, x) else {
        return None;
    };
    let Ok(older) = Piece::build(alloc, older) else {
        return None;
    };
    let Ok(newer) = Piece::build(alloc, newer) else {
        return None;
    };
    let installed = store.install(rt, alloc, newer).is_ok();
    Some((installed, cut(store.install(rt, alloc, older))))
}

#[test]
fn a_sweep_that_is_overtaken_goes_on(rt: HostRuntime) -> Result<(), Fail> {
    let alloc = rt.alloc();
    let mut core = Core::new(alloc, 2)?;
    assert!(rt; are_done(alloc, &mut core, &MADE)?);
    let mut store = Solo::over(core, 9);
    let (told, other) = overtaken(&(), alloc, &mut store);
    let first = Oid::Vertex(VertexId(0));
    let second = Oid::Vertex(VertexId(1));
    let wanted = [
        Some(Progress::Marked(3)),
        Some(Progress::Lifted(first, 2)),
        Some(Progress::Stale(first, 3)),
        Some(Progress::Nothing(second)),
        Some(Progress::End(3)),
        Some(Progress::End(3)),
    ];
    assert_eq!(rt; told, wanted);
    let moved = Swept {
        mark: 3,
        moved: 3,
        stale: 0,
    };
    assert_eq!(rt; other, Some(moved));
    Ok(())
}

#[test]
fn an_older_piece_comes_too_late(rt: HostRuntime) -> Result<(), Fail> {
    let alloc = rt.alloc();
    let mut core = Core::new(alloc, 2)?;
    assert!(rt; are_done(alloc, &mut core, &MADE)?);
    let mut store = Solo::over(core, 9);
    let told = installed_twice(&(), alloc, &mut store, Oid::Vertex(VertexId(0)));
    assert_eq!(rt; told, Some((true, Some(3))));
    Ok(())
}
