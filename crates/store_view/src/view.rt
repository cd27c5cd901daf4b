//! A store's graph as a reader.
ghost use Rattle.std.specs.Prelude.{◌≡◌, option_map, refl};
ghost use Rattle.std.proofs.Common.{◌∙◌};
ghost use Rattle.graph_reader.specs.Alive.{edge_in, vertex_in};
ghost use Rattle.store_view.specs.Seen.{edge_record, numbered, vertex_number, vertex_record};
ghost use Rattle.world_model.specs.Sending.{OnlyReads, Sees};
ghost use Rattle.world_model.proofs.Sent.{only_reads_itself, only_reads_onward, sees_coherent};

use graph_reader::GraphRead;
use graph_record::{EdgeRecord, NoMemory, Object, VertexRecord};
use graph_value::{EdgeId, Oid, VertexId};
use std::alloc::{AllocError, Global};
use world_model::{GraphStore, Kind, Txn, When};

/// The graph that a caller's transaction sees, or the one that the commits up to an instant left, as a reader. Each call
/// sends one event, and changes nothing.
#[derive(Drop)]
pub struct ViewOf<'a, S: GraphStore> {
    alloc: Global,
    rt: &'a S::Rt,
    store: &'a mut S,
    txn: &'a Txn,
    when: When,
}

impl<'a, S: GraphStore> ViewOf<'a, S> {
    /// The graph that is meant by `when` in the transaction. Takes no memory.
    ///
    /// It stands for that graph where the transaction is the caller's open one, and the instant isn't past its start.
    pub fn new(
        alloc: Global,
        rt: &'a S::Rt,
        store: &'a mut S,
        txn: &'a Txn,
        when: When,
    ) -> ViewOf<'a, S>
        ensures store { result.store.now ≡ store.old }
        ensures same_store { result.store.ghost_name ≡ store.entry.ghost_name }
        ensures txn { result.txn.now ≡ txn.now }
        ensures when { result.when ≡ when }
    {
        ViewOf {
            alloc,
            rt,
            store,
            txn,
            when,
        }
    }
}

fn number_of(v: Option<VertexId>) -> Option<u64>
    ensures { result ≡ option_map vertex_number v }
{
    match v {
        Some(v) => Some(v.0),
        None => None,
    }
}

fn vertex_of(number: Option<u64>) -> Option<VertexId>
    ensures { result ≡ option_map numbered number }
{
    match number {
        Some(number) => Some(VertexId(number)),
        None => None,
    }
}

fn as_vertex(object: Object) -> Option<VertexRecord>
    ensures { result ≡ vertex_record object }
{
    match object {
        Object::Vertex(record) => Some(record),
        Object::Edge(_) | Object::Dead => None,
    }
}

fn as_edge(object: Object) -> Option<EdgeRecord>
    ensures { result ≡ edge_record object }
{
    match object {
        Object::Edge(record) => Some(record),
        Object::Vertex(_) | Object::Dead => None,
    }
}

impl<'a, S: GraphStore> GraphRead for ViewOf<'a, S> {
    ghost stands = { λ r g. Sees S.stands S.caller S.alone r.txn.now.start r.when r.store.now g };

    ghost follows = { λ a b. OnlyReads S.stands S.caller S.alone a.store.now b.store.now
        × (S.running b.store.now ≡ S.running a.store.now)
        × (a.store.ghost_name ≡ b.store.ghost_name) };

    ghost itself = { λ r. (only_reads_itself S.stands S.caller S.alone r.store.now, refl, refl) };

    ghost onward = { λ a b c h k. (
      only_reads_onward S.stands S.caller S.alone a.store.now b.store.now c.store.now h.0 k.0,
      k.1 ∙ h.1,
      h.2 ∙ k.2,
    ) };

    ghost coherent = { λ r g s. sees_coherent S.stands S.caller S.alone S.legal r.txn.now.start r.when
        r.store.now g s };

    fn next_vertex(&mut self, after: Option<VertexId>) -> Result<Option<VertexId>, NoMemory> {
        let after = number_of(after);
        match self.store.next(
            self.rt,
            self.alloc,
            self.txn,
            Kind::Vertex,
            after,
            self.when,
        ) {
            Ok(found) => Ok(vertex_of(found)),
            Err(_) => Err(AllocError),
        }
    }

    fn vertex(&mut self, v: VertexId) -> Result<Option<VertexRecord>, NoMemory> {
        let x = Oid::Vertex(v);
        match self.store.read(self.rt, self.alloc, self.txn, x, self.when) {
            Ok(object) => Ok(as_vertex(object)),
            Err(_) => Err(AllocError),
        }
    }

    fn edge(&mut self, e: EdgeId) -> Result<Option<EdgeRecord>, NoMemory> {
        let x = Oid::Edge(e);
        match self.store.read(self.rt, self.alloc, self.txn, x, self.when) {
            Ok(object) => Ok(as_edge(object)),
            Err(_) => Err(AllocError),
        }
    }
}
