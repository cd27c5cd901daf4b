//! Two callers on one core, in turns.
ghost use Rattle.std.specs.Prelude.{◌≡◌, ◌≢◌, ℕ};
ghost use Rattle.front_core.specs.Keeps.{open_in};
ghost use Rattle.store_pass.specs.Solo.{core_of};

use crate::one_caller::made;
use front_core::Core;
use graph_value::{Oid, VertexId};
use std::alloc::{AllocError, Global};
use std::test::Fail;
use store_pass::Solo;
use txn_manager::Rival;
use undo_delta::Ask;
use world_model::{GraphStore, Kind, Refused, When, Wrote};

/// The vertex that a caller finds, and what it is told where it deletes the vertex 0. It opens a transaction for this,
/// which it aborts.
fn tried(
    alloc: Global,
    store: &mut Solo,
) -> Result<(Option<u64>, Result<Wrote, Refused>), AllocError>
    ensures others { (c : ℕ) → c ≢ ⟦<Solo as GraphStore>⟧.caller store.old →
        open_in (core_of store.new) c ≡ open_in (core_of store.old) c }
{
    let Ok(txn) = store.begin(&(), alloc) else {
        return Err(AllocError);
    };
    let found = store.next(&(), alloc, &txn, Kind::Vertex, None, When::Own);
    let told = store.write(&(), alloc, &txn, Ask::DeleteVertex(VertexId(0)));
    store.abort(&(), alloc, txn);
    Ok((found.map_err(|_| AllocError)?, told))
}

/// What the second caller finds and is told while the first one has deleted the vertex 0 in an open transaction, and the
/// number of the first one's commit.
fn in_turns(
    alloc: Global,
    store: &mut Solo,
) -> Result<(Option<u64>, Result<Wrote, Refused>, u64), AllocError> {
    store.turn_to(1);
    let Ok(txn) = store.begin(&(), alloc) else {
        return Err(AllocError);
    };
    let deleted = store.write(&(), alloc, &txn, Ask::DeleteVertex(VertexId(0)));
    store.turn_to(2);
    let told = tried(alloc, store);
    store.turn_to(1);
    let ts = store.commit(&(), alloc, txn);
    let _done = deleted.map_err(|_| AllocError)?;
    let (found, told) = told?;
    Ok((found, told, ts))
}

#[test]
fn a_transaction_stays_open_while_another_caller_is_at_work(rt: HostRuntime) -> Result<(), Fail> {
    let alloc = rt.alloc();
    let mut store = Solo::over(Core::new(alloc, 2)?, 1);
    let _made = made(alloc, &mut store)?;
    let (found, told, ts) = in_turns(alloc, &mut store)?;
    assert_eq!(rt; found, Some(0));
    let rival = Rival::Running { start: 3 };
    let vertex = Oid::Vertex(VertexId(0));
    assert_eq!(rt; told, Err(Refused::Conflict(vertex, rival)));
    assert_eq!(rt; ts, 5);
    Ok(())
}
