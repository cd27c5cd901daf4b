ghost use Rattle.std.specs.Prelude.{◌≡◌, IfOk};
ghost use Rattle.graph_record.specs.Form.{IsForm};
ghost use Rattle.graph_record.specs.Record.{empty_vertex};

use crate::{EdgeIds, Kind, Labels, NoMemory, Properties};
use graph_value::VertexId;
use std::alloc::Global;

/// What is kept of a vertex.
#[derive(Debug, Drop)]
pub struct VertexRecord {
    pub labels: Labels,
    pub props: Properties,
    pub outs: EdgeIds,
    pub ins: EdgeIds,
}

impl VertexRecord {
    /// A vertex as it is created: without labels, properties and edges.
    pub fn empty(alloc: Global) -> VertexRecord
        ensures { result ≡ empty_vertex }
    {
        VertexRecord {
            labels: Labels::new(alloc),
            props: Properties::new(alloc),
            outs: EdgeIds::new(alloc),
            ins: EdgeIds::new(alloc),
        }
    }

    /// The same record, which shares its lists. It allocates nothing: the error says that a list has as many owners as
    /// can be counted.
    pub fn copy(&self) -> Result<VertexRecord, NoMemory>
        ensures { IfOk result (λ v. v ≡ self.now) }
    {
        Ok(VertexRecord {
            labels: self.labels.copy()?,
            props: self.props.copy()?,
            outs: self.outs.copy()?,
            ins: self.ins.copy()?,
        })
    }
}

/// What is kept of an edge.
#[derive(Debug, Drop)]
pub struct EdgeRecord {
    pub kind: Kind,
    pub from: VertexId,
    pub to: VertexId,
    pub props: Properties,
}

impl EdgeRecord {
    /// The same record, which shares its kind and its properties. It allocates nothing: the error says that one of them
    /// has as many owners as can be counted.
    pub fn copy(&self) -> Result<EdgeRecord, NoMemory>
        ensures { IfOk result (λ e. e ≡ self.now) }
    {
        Ok(EdgeRecord {
            kind: self.kind.copy()?,
            from: self.from,
            to: self.to,
            props: self.props.copy()?,
        })
    }
}

/// An object of the graph, as it is at some instant.
#[derive(Debug, Drop)]
pub enum Object {
    /// It isn't there: it was never made, or it was deleted.
    Dead,
    Vertex(VertexRecord),
    Edge(EdgeRecord),
}

impl Object {
    /// The same object, which shares what it holds. It allocates nothing: the error says that a part has as many owners
    /// as can be counted.
    pub fn copy(&self) -> Result<Object, NoMemory>
        ensures { IfOk result (λ o. o ≡ self.now) }
    {
        match self {
            Object::Dead => Ok(Object::Dead),
            Object::Vertex(vertex) => Ok(Object::Vertex(vertex.copy()?)),
            Object::Edge(edge) => Ok(Object::Edge(edge.copy()?)),
        }
    }

    /// The form that each object has, for proofs: its lists in order, and storable values alone. It reads a few
    /// lengths, and nothing comes of them.
    pub fn form(&self)
        ensures { IsForm self.now }
    {
        match self {
            Object::Dead => {}
            Object::Vertex(vertex) => {
                vertex.labels.len();
                vertex.props.as_slice();
                vertex.outs.len();
                vertex.ins.len();
            }
            Object::Edge(edge) => {
                edge.props.as_slice();
            }
        }
    }
}
