//! Each write and each delta on objects that are written out, compared with what it has to leave.
use crate::edges::{self, EDGES, LOOPS, TOUCHES};
use crate::table::{self, DELTAS, WRITES};
use graph_record::Object;
use graph_value::VertexId;
use std::alloc::Global;
use std::test::Fail;
use undo_delta::{Ask, GraphUndo, NoMemory};
use undo_law::Undo;

#[test]
fn writes_leave_their_objects_and_deltas(rt: HostRuntime) -> Result<(), Fail> {
    let alloc = rt.alloc();
    for (i, row) in WRITES.iter().enumerate() {
        assert!(rt; table::write_holds(alloc, row)?, "row {i}");
    }
    Ok(())
}

#[test]
fn deltas_leave_their_objects(rt: HostRuntime) -> Result<(), Fail> {
    let alloc = rt.alloc();
    for (i, row) in DELTAS.iter().enumerate() {
        assert!(rt; table::delta_holds(alloc, row)?, "row {i}");
    }
    Ok(())
}

#[test]
fn edges_change_with_their_ends(rt: HostRuntime) -> Result<(), Fail> {
    let alloc = rt.alloc();
    for (i, row) in EDGES.iter().enumerate() {
        assert!(rt; edges::edge_holds(alloc, row)?, "row {i}");
    }
    for (i, row) in LOOPS.iter().enumerate() {
        assert!(rt; edges::loop_holds(alloc, row)?, "loop {i}");
    }
    Ok(())
}

#[test]
fn writes_touch_their_objects(rt: HostRuntime) -> Result<(), Fail> {
    let alloc = rt.alloc();
    for (i, row) in TOUCHES.iter().enumerate() {
        assert!(rt; edges::touches_hold(alloc, row)?, "row {i}");
    }
    Ok(())
}

fn dead_is_absent(alloc: Global) -> Result<bool, NoMemory> {
    let dead = GraphUndo::copy_object(alloc, &Object::Dead)?;
    Ok(GraphUndo::absent(&dead) && GraphUndo::same_object(&dead, &Object::Dead))
}

fn is_deletion_of_0(ask: &Ask) -> bool {
    matches!(ask, Ask::DeleteVertex(VertexId(0)))
}

#[test]
fn a_copy_of_what_is_dead_is_absent(rt: HostRuntime) -> Result<(), Fail> {
    assert!(rt; dead_is_absent(rt.alloc())?);
    assert!(rt; is_deletion_of_0(&Ask::DeleteVertex(VertexId(0))));
    Ok(())
}
