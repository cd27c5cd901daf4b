//! Graphs of any size, to be measured on.
//!
//! Each vertex has the label `Node` and the properties g, the rest of its number by 100, and k, a scattered number. The
//! first one has the label `First` too. From each goes an edge NEXT to the vertex behind it, and an edge JUMP to one far off.
use crate::draft::Draft;
use graph_reader::Graph;
use graph_record::{Kind, Labels, Properties};
use graph_value::{Name, NoMemory, Value, VertexId};
use std::alloc::Global;

/// How many vertices have one g.
const GROUPS: u64 = 100;

/// The names that stand in each vertex and each edge.
#[derive(Drop)]
struct Names {
    node: Name,
    group: Name,
    key: Name,
    next: Kind,
    jump: Kind,
}

fn make_names(alloc: Global) -> Result<Names, NoMemory> {
    Ok(Names {
        node: Name::from_str(alloc, "Node")?,
        group: Name::from_str(alloc, "g")?,
        key: Name::from_str(alloc, "k")?,
        next: Kind::new(alloc, Name::from_str(alloc, "NEXT")?)?,
        jump: Kind::new(alloc, Name::from_str(alloc, "JUMP")?)?,
    })
}

/// A number from 0 up to 2^31 that tells little of `n`.
pub fn scattered(n: u64) -> i64 {
    let mixed = n
        .wrapping_mul(6364136223846793005)
        .wrapping_add(1442695040888963407);
    (mixed >> 33) as i64
}

fn labels(alloc: Global, names: &Names, n: u64) -> Result<Labels, NoMemory> {
    let mut labels = Labels::new(alloc);
    labels.add(names.node.copy()?)?;
    if n == 0 {
        labels.add(Name::from_str(alloc, "First")?)?;
    }
    Ok(labels)
}

fn add_vertex(alloc: Global, draft: &mut Draft, names: &Names, n: u64) -> Result<(), NoMemory> {
    let mut props = Properties::new(alloc);
    props.set(&names.group, Value::Int((n % GROUPS) as i64))?;
    props.set(&names.key, Value::Int(scattered(n)))?;
    draft.add_vertex(labels(alloc, names, n)?, props)
}

fn add_edge(
    alloc: Global,
    draft: &mut Draft,
    kind: &Kind,
    from: u64,
    to: u64,
) -> Result<(), NoMemory> {
    let props = Properties::new(alloc);
    draft.add_edge(kind.copy()?, VertexId(from), VertexId(to), props)
}

/// A graph of so many vertices, and of twice as many edges.
pub fn spread(alloc: Global, size: u64) -> Result<Option<Graph>, NoMemory> {
    let names = make_names(alloc)?;
    let mut draft = Draft::new(alloc);
    for n in 0..size {
        add_vertex(alloc, &mut draft, &names, n)?;
    }
    for n in 0..size {
        let behind = n.wrapping_add(1) % size;
        let far = n.wrapping_mul(7).wrapping_add(3) % size;
        add_edge(alloc, &mut draft, &names.next, n, behind)?;
        add_edge(alloc, &mut draft, &names.jump, n, far)?;
    }
    Ok(draft.finish())
}
