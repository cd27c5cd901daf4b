//! What is read at earlier instants before a sweep and behind it, by hand.
use crate::graph::{Act, Deed, Write, are_done};
use collector::{Swept, sweep_all};
use front_core::{Core, NoMemory};
use graph_record::Object;
use graph_value::{EdgeId, Oid, Value, VertexId};
use std::alloc::{AllocError, Global};
use std::test::Fail;
use store_pass::Solo;
use world_model::{GraphStore, Txn, When};

/// Two vertices with an edge; then the edge is deleted.
static CHANGED: [Act; 10] = [
    (1, Deed::Begin),
    (1, Deed::Write(Write::Vertex)),
    (1, Deed::Write(Write::Vertex)),
    (1, Deed::Write(Write::Edge(0, 1))),
    (1, Deed::Write(Write::Set(0, 5))),
    (1, Deed::Commit),
    (1, Deed::Begin),
    (1, Deed::Write(Write::DeleteEdge(0))),
    (1, Deed::Write(Write::Set(0, 6))),
    (1, Deed::Commit),
];

/// What a read tells.
#[derive(Clone, Copy, PartialEq, Eq, Debug)]
enum Seen {
    Dead,
    /// How many edges leave the vertex, how many come in, and its property `k`.
    Vertex(usize, usize, Option<i64>),
    Edge,
}

/// An object, an instant, and what is seen there.
static LOOKS: [(Oid, u64, Seen); 9] = [
    (Oid::Vertex(VertexId(0)), 1, Seen::Dead),
    (Oid::Vertex(VertexId(0)), 2, Seen::Vertex(1, 0, Some(5))),
    (Oid::Vertex(VertexId(0)), 3, Seen::Vertex(1, 0, Some(5))),
    (Oid::Vertex(VertexId(0)), 4, Seen::Vertex(0, 0, Some(6))),
    (Oid::Vertex(VertexId(1)), 1, Seen::Dead),
    (Oid::Vertex(VertexId(1)), 2, Seen::Vertex(0, 1, None)),
    (Oid::Vertex(VertexId(1)), 4, Seen::Vertex(0, 0, None)),
    (Oid::Edge(EdgeId(0)), 2, Seen::Edge),
    (Oid::Edge(EdgeId(0)), 4, Seen::Dead),
];

fn number(value: Option<&Value>) -> Option<i64> {
    match value {
        Some(Value::Int(n)) => Some(*n),
        _ => None,
    }
}

fn look(object: &Object) -> Seen {
    match object {
        Object::Dead => Seen::Dead,
        Object::Vertex(v) => Seen::Vertex(v.outs.len(), v.ins.len(), number(v.props.get("k"))),
        Object::Edge(_) => Seen::Edge,
    }
}

/// Whether all is seen so.
fn all_seen(alloc: Global, store: &mut Solo, txn: &Txn, looks: &[(Oid, u64, Seen)]) -> bool {
    for (x, t, wanted) in looks {
        let read = store.read(&(), alloc, txn, *x, When::At(*t));
        let told = match &read {
            Ok(object) => look(object) == *wanted,
            Err(_) => false,
        };
        if !told {
            return false;
        }
    }
    true
}

/// Whether all is seen so before a sweep and behind it, and what the sweep tells.
fn swept_between(
    alloc: Global,
    core: Core,
    looks: &[(Oid, u64, Seen)],
) -> Result<(bool, Option<Swept>, bool), NoMemory> {
    let mut store = Solo::over(core, 3);
    let Ok(txn) = store.begin(&(), alloc) else {
        return Err(AllocError);
    };
    let before = all_seen(alloc, &mut store, &txn, looks);
    let swept = sweep_all(&(), alloc, &mut store).ok();
    let behind = all_seen(alloc, &mut store, &txn, looks);
    let _start = txn.end();
    Ok((before, swept, behind))
}

#[test]
fn the_past_reads_the_same_behind_a_sweep(rt: HostRuntime) -> Result<(), Fail> {
    let alloc = rt.alloc();
    let mut core = Core::new(alloc, 2)?;
    assert!(rt; are_done(alloc, &mut core, &CHANGED)?);
    let (before, swept, behind) = swept_between(alloc, core, &LOOKS)?;
    assert!(rt; before && behind);
    let wanted = Swept {
        mark: 5,
        moved: 10,
        stale: 0,
    };
    assert_eq!(rt; swept, Some(wanted));
    Ok(())
}
