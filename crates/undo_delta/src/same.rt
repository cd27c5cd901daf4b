//! Whether two objects are the same, part by part.
ghost use Rattle.std.specs.Prelude.{◌≡◌, ◌↔◌, IsTrue};

use graph_record::{EdgeIds, EdgeRecord, Kind, Labels, Object, Properties, VertexRecord};

pub(crate) fn same_objects(a: &Object, b: &Object) -> bool
    ensures { IsTrue result ↔ (a.now ≡ b.now) }
{
    match (a, b) {
        (Object::Dead, Object::Dead) => true,
        (Object::Vertex(a), Object::Vertex(b)) => same_vertices(a, b),
        (Object::Edge(a), Object::Edge(b)) => same_edges(a, b),
        _ => false,
    }
}

fn same_vertices(a: &VertexRecord, b: &VertexRecord) -> bool
    ensures { IsTrue result ↔ (a.now ≡ b.now) }
{
    same_labels(&a.labels, &b.labels)
        && same_properties(&a.props, &b.props)
        && same_ids(&a.outs, &b.outs)
        && same_ids(&a.ins, &b.ins)
}

fn same_edges(a: &EdgeRecord, b: &EdgeRecord) -> bool
    ensures { IsTrue result ↔ (a.now ≡ b.now) }
{
    same_kinds(&a.kind, &b.kind)
        && a.from == b.from
        && a.to == b.to
        && same_properties(&a.props, &b.props)
}

fn same_kinds(a: &Kind, b: &Kind) -> bool
    ensures { IsTrue result ↔ (a.now ≡ b.now) }
{
    a.as_str() == b.as_str()
}

fn same_ids(a: &EdgeIds, b: &EdgeIds) -> bool
    ensures { IsTrue result ↔ (a.now ≡ b.now) }
{
    a.as_slice() == b.as_slice()
}

fn same_labels(a: &Labels, b: &Labels) -> bool
    ensures { IsTrue result ↔ (a.now ≡ b.now) }
{
    a.as_slice() == b.as_slice()
}

fn same_properties(a: &Properties, b: &Properties) -> bool
    ensures { IsTrue result ↔ (a.now ≡ b.now) }
{
    a.as_slice() == b.as_slice()
}
