use front_core::Core;
use graph_reader::GraphRead;
use graph_record::Object;
use graph_value::{EdgeId, Oid, VertexId};
use std::alloc::{AllocError, Global};
use std::process::Abort;
use std::test::Fail;
use store_pass::Solo;
use store_view::ViewOf;
use undo_delta::Ask;
use world_model::{GraphStore, Kind, Txn, When, Wrote};

/// A vertex is made in a transaction, which is committed: what the write and the commit tell.
pub fn made(alloc: Global, store: &mut Solo) -> Result<(Option<Wrote>, u64), AllocError> {
    let Ok(txn) = store.begin(&(), alloc) else {
        return Err(AllocError);
    };
    let wrote = store.write(&(), alloc, &txn, Ask::CreateVertex).ok();
    let ts = store.commit(&(), alloc, txn);
    Ok((wrote, ts))
}

/// A transaction is aborted: what a search and a read have told in it.
fn searched(alloc: Global, store: &mut Solo) -> Result<(Option<u64>, bool), AllocError> {
    let Ok(txn) = store.begin(&(), alloc) else {
        return Err(AllocError);
    };
    let found = store.next(&(), alloc, &txn, Kind::Vertex, None, When::Own);
    let x = Oid::Vertex(VertexId(0));
    let object = store.read(&(), alloc, &txn, x, When::At(1));
    store.abort(&(), alloc, txn);
    let found = found.map_err(|_| AllocError)?;
    let dead = matches!(object, Ok(Object::Dead));
    Ok((found, dead))
}

/// The first vertex that a view has, whether it has the vertex 0, and whether it has the edge 0.
fn viewed(
    alloc: Global,
    store: &mut Solo,
    txn: &Txn,
) -> Result<(Option<VertexId>, bool, bool), AllocError> {
    let mut view = ViewOf::new(alloc, &(), store, txn, When::Own);
    let first = view.next_vertex(None)?;
    let vertex = view.vertex(VertexId(0))?;
    let edge = view.edge(EdgeId(0))?;
    Ok((first, vertex.is_some(), edge.is_some()))
}

/// The same of what a transaction sees.
fn looked(alloc: Global, store: &mut Solo) -> Result<(Option<VertexId>, bool, bool), AllocError> {
    let Ok(txn) = store.begin(&(), alloc) else {
        return Err(AllocError);
    };
    let seen = viewed(alloc, store, &txn);
    let _start = txn.end();
    seen
}

#[test]
fn one_caller_writes_and_reads(rt: HostRuntime) -> Result<(), Fail> {
    let alloc = rt.alloc();
    let mut store = Solo::over(Core::new(alloc, 2)?, 1);
    let (wrote, ts) = made(alloc, &mut store)?;
    assert_eq!(rt; wrote, Some(Wrote::Vertex(VertexId(0))));
    assert_eq!(rt; ts, 2);
    let marked = store.mark(&(), alloc);
    assert_eq!(rt; (marked.mark, marked.clock, marked.vertices), (3, 3, 1));
    let lifted = store.lift(&(), alloc, Oid::Vertex(VertexId(0)));
    let count = lifted.ok().map(|lifted| lifted.tail.deltas.len());
    assert_eq!(rt; count, Some(1));
    let stats = store.stats(&(), alloc);
    assert_eq!(rt; (stats.chain, stats.history, stats.blocks), (1, 0, 0));
    Ok(())
}

#[test]
fn a_transaction_is_searched_and_viewed(rt: HostRuntime) -> Result<(), Fail> {
    let alloc = rt.alloc();
    let mut store = Solo::over(Core::new(alloc, 2)?, 1);
    let _made = made(alloc, &mut store)?;
    let (found, dead) = searched(alloc, &mut store)?;
    assert_eq!(rt; found, Some(0));
    assert!(rt; dead);
    let (first, vertex, edge) = looked(alloc, &mut store)?;
    assert_eq!(rt; first, Some(VertexId(0)));
    assert!(rt; vertex && !edge);
    Ok(())
}
