ghost use Rattle.std.specs.Prelude.{◌≡◌};
ghost use Rattle.undo_delta.specs.Apply.{after};
ghost use Rattle.anchor_store.specs.Blocks.{version};
ghost use Rattle.front_core.specs.Outlines.{is_absent, outline_after, outline_end, outline_of, outline_start};

use anchor_store::Block;
use graph_record::Object;
use graph_value::VertexId;
use undo_delta::{Delta, GraphUndo};

/// What an object is, without its parts. It is found without memory and without a copy.
#[derive(Clone, Copy, Debug)]
pub(crate) enum Outline {
    Dead,
    Vertex,
    Edge { from: VertexId, to: VertexId },
}

impl Outline {
    pub fn of(object: &Object) -> Outline
        ensures { result ≡ outline_of object.now }
    {
        match object {
            Object::Dead => Outline::Dead,
            Object::Vertex(_) => Outline::Vertex,
            Object::Edge(edge) => Outline::Edge {
                from: edge.from,
                to: edge.to,
            },
        }
    }

    /// The outline of the object after the delta.
    pub fn after(self, delta: &Delta) -> Outline
        ensures { result ≡ outline_after self delta.now }
    {
        match delta {
            Delta::DeleteObject => Outline::Dead,
            Delta::RecreateObject(former) => Outline::of(former.as_object()),
            _ => self,
        }
    }

    /// The outline of the object that a block has at the instant t.
    pub fn in_block(block: &Block<GraphUndo>, t: u64) -> Outline
        ensures { result ≡ outline_of (version after block.now t) }
    {
        let mut outline = Outline::of(block.anchor());
        for dated in block.deltas() {
            if t < dated.ts {
                outline = outline.after(&dated.delta);
            }
        }
        outline
    }

    pub fn is_absent(self) -> bool
        ensures { result ≡ is_absent self }
    {
        matches!(self, Outline::Dead)
    }

    /// The vertex that an edge comes from, and the one that it goes to. Of what is no edge they are of no account.
    pub fn ends(self) -> (VertexId, VertexId)
        ensures { result ≡ (outline_start self, outline_end self) }
    {
        match self {
            Outline::Edge { from, to } => (from, to),
            Outline::Dead | Outline::Vertex => (VertexId(0), VertexId(0)),
        }
    }
}
