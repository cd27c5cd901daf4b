use graph_reader::Graph;
use graph_record::{EdgeIds, EdgeRecord, Kind, Labels, NoMemory, Object, Properties, VertexRecord};
use graph_value::{EdgeId, Name, Value, VertexId};
use std::alloc::Global;
use std::test::Fail;

/// Sets `k` to the number, and says which number it had.
fn set_number(alloc: Global, props: &mut Properties, n: i64) -> Result<Option<i64>, NoMemory> {
    let former = props.set(&Name::from_str(alloc, "k")?, Value::Int(n))?;
    Ok(number(former.as_ref()))
}

fn number(value: Option<&Value>) -> Option<i64> {
    match value {
        Some(Value::Int(n)) => Some(*n),
        _ => None,
    }
}

/// Sets `k` to 3, and says which number it had, which it has, and which the copy has.
fn replaced_beside(
    alloc: Global,
    props: &mut Properties,
    copy: &Properties,
) -> Result<[Option<i64>; 3], NoMemory> {
    let former = set_number(alloc, props, 3)?;
    Ok([former, number(props.get("k")), number(copy.get("k"))])
}

fn replaced(alloc: Global, props: &mut Properties) -> Result<[Option<i64>; 3], NoMemory> {
    let copy = props.copy()?;
    replaced_beside(alloc, props, &copy)
}

/// Takes `k` away, and says how many properties are left.
fn left(alloc: Global, props: &mut Properties) -> Result<usize, NoMemory> {
    props.set(&Name::from_str(alloc, "k")?, Value::Null)?;
    Ok(props.len())
}

/// Sets `k` to 2, copies, sets it to 3, and takes it away.
fn are_replaced(alloc: Global, props: &mut Properties) -> Result<bool, NoMemory> {
    Ok(
        set_number(alloc, props, 2)?.is_none()
            && replaced(alloc, props)? == [Some(2), Some(3), Some(2)]
            && left(alloc, props)? == 0,
    )
}

fn properties_hold(alloc: Global) -> Result<bool, NoMemory> {
    let mut props = Properties::new(alloc);
    are_replaced(alloc, &mut props)
}

#[test]
fn a_later_value_replaces_an_earlier_one_and_null_takes_it_away(
    rt: HostRuntime,
) -> Result<(), Fail> {
    assert!(rt; properties_hold(rt.alloc())?);
    Ok(())
}

/// Takes a label away: whether it was there, whether the copy has it, how many are left.
fn removed_beside(labels: &mut Labels, copy: &Labels) -> Result<(bool, bool, usize), NoMemory> {
    Ok((labels.remove("a")?, copy.contains("a"), labels.len()))
}

fn removed(labels: &mut Labels) -> Result<(bool, bool, usize), NoMemory> {
    let copy = labels.copy()?;
    removed_beside(labels, &copy)
}

/// Adds two labels, copies, and takes one away.
fn are_changed(alloc: Global, labels: &mut Labels) -> Result<bool, NoMemory> {
    labels.add(Name::from_str(alloc, "b")?)?;
    labels.add(Name::from_str(alloc, "a")?)?;
    Ok(removed(labels)? == (true, true, 1))
}

fn labels_hold(alloc: Global) -> Result<bool, NoMemory> {
    let mut labels = Labels::new(alloc);
    are_changed(alloc, &mut labels)
}

#[test]
fn labels_are_added_and_removed_and_copies_stay(rt: HostRuntime) -> Result<(), Fail> {
    assert!(rt; labels_hold(rt.alloc())?);
    Ok(())
}

/// Takes the last edge off, adds one and removes the first: whether the list and its copy hold what is left.
fn edges_beside(edges: &mut EdgeIds, copy: &EdgeIds) -> Result<bool, NoMemory> {
    let last = edges.pop();
    edges.add(EdgeId(9))?;
    edges.remove(EdgeId(5))?;
    Ok(
        last == Some(EdgeId(7))
            && edges.as_slice() == [EdgeId(9)].as_slice()
            && copy.as_slice() == [EdgeId(5), EdgeId(7)].as_slice(),
    )
}

/// Adds two edges, copies, and changes the list.
fn changed_edges(edges: &mut EdgeIds) -> Result<bool, NoMemory> {
    edges.add(EdgeId(7))?;
    edges.add(EdgeId(5))?;
    let copy = edges.copy()?;
    edges_beside(edges, &copy)
}

fn edges_hold(alloc: Global) -> Result<bool, NoMemory> {
    let mut edges = EdgeIds::new(alloc);
    Ok(
        changed_edges(&mut edges)?
            && edges.len() == 1
            && edges.contains(EdgeId(9))
            && edges.is_below(EdgeId(10)),
    )
}

#[test]
fn edges_are_added_and_removed_and_copies_stay(rt: HostRuntime) -> Result<(), Fail> {
    assert!(rt; edges_hold(rt.alloc())?);
    Ok(())
}

fn knows(alloc: Global) -> Result<EdgeRecord, NoMemory> {
    Ok(EdgeRecord {
        kind: Kind::new(alloc, Name::from_str(alloc, "knows")?)?,
        from: VertexId(4),
        to: VertexId(7),
        props: Properties::new(alloc),
    })
}

fn is_knows(edge: &EdgeRecord) -> bool {
    edge.kind.as_str() == "knows" && edge.to == VertexId(7)
}

fn edge_is_copied(alloc: Global) -> Result<bool, NoMemory> {
    let edge = knows(alloc)?;
    Ok(is_knows(&edge.copy()?))
}

fn vertex_is_copied(alloc: Global) -> Result<bool, NoMemory> {
    let vertex = VertexRecord::empty(alloc);
    Ok(vertex.copy()?.props.len() == 0)
}

fn dead_is_copied() -> Result<bool, NoMemory> {
    Ok(matches!(Object::Dead.copy()?, Object::Dead))
}

#[test]
fn copies_of_records_hold_the_same(rt: HostRuntime) -> Result<(), Fail> {
    assert!(rt; vertex_is_copied(rt.alloc())?);
    assert!(rt; edge_is_copied(rt.alloc())?);
    assert!(rt; dead_is_copied()?);
    Ok(())
}

#[test]
#[tactic(auto, using(graph_record::proofs::Graphs::empty_coherent))]
fn a_graph_may_be_empty(rt: HostRuntime) -> Result<(), Fail> {
    let alloc = rt.alloc();
    let _empty = Graph::new(alloc);
    let _listed = Graph::of(Vec::new(alloc), Vec::new(alloc));
    Ok(())
}
