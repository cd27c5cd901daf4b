//! A graph in the making.
use crate::coherence::graph_of;
use graph_reader::Graph;
use graph_record::{EdgeIds, EdgeRecord, Kind, Labels, Properties, VertexRecord};
use graph_value::{EdgeId, NoMemory, VertexId};
use std::alloc::Global;

/// The vertices and edges of a graph in the making, each numbered by its place.
#[derive(Drop)]
pub struct Draft {
    alloc: Global,
    vertices: Vec<(VertexId, VertexRecord)>,
    edges: Vec<(EdgeId, EdgeRecord)>,
}

impl Draft {
    pub fn new(alloc: Global) -> Draft {
        Draft {
            alloc,
            vertices: Vec::new(alloc),
            edges: Vec::new(alloc),
        }
    }

    /// Puts a vertex without edges behind the others.
    pub fn add_vertex(&mut self, labels: Labels, props: Properties) -> Result<(), NoMemory> {
        let id = VertexId(self.vertices.len() as u64);
        let record = VertexRecord {
            labels,
            props,
            outs: EdgeIds::new(self.alloc),
            ins: EdgeIds::new(self.alloc),
        };
        self.vertices.push((id, record))?;
        Ok(())
    }

    /// Puts an edge behind the others, from and to vertices that are there.
    pub fn add_edge(
        &mut self,
        kind: Kind,
        from: VertexId,
        to: VertexId,
        props: Properties,
    ) -> Result<(), NoMemory> {
        let id = EdgeId(self.edges.len() as u64);
        self.edges.push((
            id,
            EdgeRecord {
                kind,
                from,
                to,
                props,
            },
        ))?;
        self.list_at_ends(id, from, to)
    }

    fn list_at_ends(&mut self, id: EdgeId, from: VertexId, to: VertexId) -> Result<(), NoMemory> {
        let (from, to) = (from.0 as usize, to.0 as usize);
        if from < self.vertices.len() && to < self.vertices.len() {
            self.vertices[from].1.outs.add(id)?;
            self.vertices[to].1.ins.add(id)?;
        }
        Ok(())
    }

    /// The graph. `None` says that an edge has an end that isn't there.
    pub fn finish(self) -> Option<Graph> {
        graph_of(self.vertices, self.edges)
    }
}
