use graph_value::{EdgeId, Name, Value, VertexId};

/// A write that a caller asks for.
#[derive(Debug, Drop)]
pub enum Ask {
    /// Makes a vertex under the next free id, without labels and properties.
    CreateVertex,
    DeleteVertex(VertexId),
    AddLabel(VertexId, Name),
    RemoveLabel(VertexId, Name),
    /// A value that no object keeps, as null, removes the property.
    SetVertexProp(VertexId, Name, Value),
    /// Makes an edge under the next free id, without properties.
    CreateEdge {
        from: VertexId,
        kind: Name,
        to: VertexId,
    },
    DeleteEdge(EdgeId),
    /// A value that no object keeps, as null, removes the property.
    SetEdgeProp(EdgeId, Name, Value),
}
