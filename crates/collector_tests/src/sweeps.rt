//! What whole sweeps tell, by hand: each write leaves one delta, and one that makes or deletes an edge leaves one on the
//! edge and one for each of its ends.
use crate::graph::{Act, Deed, Write, are_done};
use collector::{Swept, sweep_all};
use front_core::{Core, NoMemory};
use std::alloc::Global;
use std::test::Fail;
use store_pass::Solo;
use world_model::GraphStore;

/// Ids are given out, and nothing was committed.
static ABORTED: [Act; 4] = [
    (1, Deed::Begin),
    (1, Deed::Write(Write::Vertex)),
    (1, Deed::Write(Write::Vertex)),
    (1, Deed::Abort),
];

/// Two vertices, an edge from the first to the second and one from the first to itself; and then some changes. The first
/// vertex has six deltas, the second four, the first edge two and the second one.
static CHANGED: [Act; 11] = [
    (1, Deed::Begin),
    (1, Deed::Write(Write::Vertex)),
    (1, Deed::Write(Write::Vertex)),
    (1, Deed::Write(Write::Edge(0, 1))),
    (1, Deed::Write(Write::Edge(0, 0))),
    (1, Deed::Write(Write::Set(0, 5))),
    (1, Deed::Commit),
    (1, Deed::Begin),
    (1, Deed::Write(Write::DeleteEdge(0))),
    (1, Deed::Write(Write::Set(1, 7))),
    (1, Deed::Commit),
];

/// The second caller's transaction holds the mark at 3, between the two commits: two deltas lie below.
static HELD: [Act; 8] = [
    (1, Deed::Begin),
    (1, Deed::Write(Write::Vertex)),
    (1, Deed::Write(Write::Set(0, 1))),
    (1, Deed::Commit),
    (2, Deed::Begin),
    (1, Deed::Begin),
    (1, Deed::Write(Write::Set(0, 2))),
    (1, Deed::Commit),
];

/// It ends.
static LET_GO: [Act; 1] = [(2, Deed::Commit)];

/// The deltas in chains and in histories, and the blocks.
type Counts = (u64, u64, u64);

/// What a sweep tells and leaves behind these acts, unless one of them is refused; and the core behind it.
fn swept(
    alloc: Global,
    mut core: Core,
    acts: &[Act],
) -> Result<(Core, Option<(Swept, Counts)>), NoMemory> {
    if !are_done(alloc, &mut core, acts)? {
        return Ok((core, None));
    }
    let mut store = Solo::over(core, 9);
    let swept = sweep_all(&(), alloc, &mut store)?;
    let stats = store.stats(&(), alloc);
    let counts = (stats.chain, stats.history, stats.blocks);
    Ok((store.into_core(), Some((swept, counts))))
}

fn moved(mark: u64, moved: u64) -> Swept {
    Swept {
        mark,
        moved,
        stale: 0,
    }
}

#[test]
fn nothing_is_moved_where_nothing_has_expired(rt: HostRuntime) -> Result<(), Fail> {
    let alloc = rt.alloc();
    let (core, first) = swept(alloc, Core::new(alloc, 2)?, &[])?;
    assert_eq!(rt; first, Some((moved(1, 0), (0, 0, 0))));
    let (_core, second) = swept(alloc, core, &ABORTED)?;
    assert_eq!(rt; second, Some((moved(2, 0), (0, 0, 0))));
    Ok(())
}

#[test]
fn what_has_expired_is_moved_once(rt: HostRuntime) -> Result<(), Fail> {
    let alloc = rt.alloc();
    let (core, first) = swept(alloc, Core::new(alloc, 2)?, &CHANGED)?;
    assert_eq!(rt; first, Some((moved(5, 13), (0, 13, 7))));
    let (_core, second) = swept(alloc, core, &[])?;
    assert_eq!(rt; second, Some((moved(5, 0), (0, 13, 7))));
    Ok(())
}

#[test]
fn an_open_transaction_holds_the_mark(rt: HostRuntime) -> Result<(), Fail> {
    let alloc = rt.alloc();
    let (core, first) = swept(alloc, Core::new(alloc, 2)?, &HELD)?;
    assert_eq!(rt; first, Some((moved(3, 2), (1, 2, 1))));
    let (core, second) = swept(alloc, core, &[])?;
    assert_eq!(rt; second, Some((moved(3, 0), (1, 2, 1))));
    let (_core, third) = swept(alloc, core, &LET_GO)?;
    assert_eq!(rt; third, Some((moved(6, 1), (0, 3, 2))));
    Ok(())
}
