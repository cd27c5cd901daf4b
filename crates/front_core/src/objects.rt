ghost use Rattle.std.specs.Prelude.{◌≡◌, ◌≢◌, ◌≤◌, ◌+◌, Some, None, IsTrue, OnOk, OnErr, is_some, unwrap_or};
ghost use Rattle.std.specs.Option.{option_copied};
ghost use Rattle.graph_value.specs.declared.id.Oid.TheVariants as oid;
ghost use Rattle.undo_delta.specs.Change.{is_possible};
ghost use Rattle.undo_delta.specs.Touch.{is_touched, joined};
ghost use Rattle.front_core.specs.Rows.{aborted_row, committed_row, cut_row, no_row, written_row, MayCommit};
ghost use Rattle.world_model.specs.Op.{is_given};
ghost use Rattle.graph_value.specs.declared.id.Oid.{Oid as AnyOid};
ghost use Rattle.front_core.specs.Objects.{Ended, Grown, Has, Replaced, Rewritten, Unmoved, made_edges, made_vertices, range_of, row_at};
ghost use Rattle.front_core.specs.Tables.{next_of};
ghost use Rattle.front_core.specs.declared.objects.Objects.{Objects as AllObjects};

use crate::NoMemory;
use crate::edge_rows::{write_between, write_loop};
use crate::row::Row;
use crate::rows::Rows;
use graph_value::Oid;
use std::alloc::Global;
use undo_delta::{Joined, Op};
use world_model::{ID_END, Kind};

/// The rows of all objects, found by their ids.
#[derive(Drop)]
pub(crate) struct Objects {
    pub vertices: Rows,
    pub edges: Rows,
}

impl Objects {
    /// The number of the first row of a kind, and the one that the next object gets.
    pub fn range(&self, kind: Kind) -> (u64, u64)
        ensures { result ≡ range_of self.now kind }
    {
        let rows = match kind {
            Kind::Vertex => &self.vertices,
            Kind::Edge => &self.edges,
        };
        (rows.first(), rows.next())
    }

    /// The row of an object, `None` where nobody has made it.
    pub fn row(&self, x: Oid) -> Option<&Row>
        ensures { unwrap_or (option_copied result) no_row ≡ row_at self.now x }
    {
        match x {
            Oid::Vertex(v) => self.vertices.get(v.0),
            Oid::Edge(e) => self.edges.get(e.0),
        }
    }

    /// The row of an object, or `nobody`, the row of what nobody has made.
    pub fn row_or<'a>(&'a self, x: Oid, nobody: &'a Row) -> &'a Row
        requires { nobody.now ≡ no_row }
        ensures { result.now ≡ row_at self.now x }
    {
        match self.row(x) {
            Some(row) => row,
            None => nobody,
        }
    }

    /// Whether an open transaction writes the object.
    pub fn is_written(&self, x: Oid) -> bool
        ensures { result ≡ is_some (row_at self.now x).writing }
    {
        match self.row(x) {
            Some(row) => row.is_written(),
            None => false,
        }
    }

    /// Does the write of the caller's transaction on all that it touches. Without memory nothing changes.
    pub fn write(&mut self, alloc: Global, caller: u64, start: u64, op: &Op) -> Result<(), NoMemory>
        requires there { (x : Oid) → IsTrue (is_touched op.now x) → Has self.old x }
        requires possible { (x : Oid) → IsTrue (is_touched op.now x) →
            IsTrue (is_possible op.now x (row_at self.old x).newest) }
        ensures ok { OnOk result (Rewritten self.old self.new caller start op.now) }
        ensures err { OnErr result (Unmoved self.old self.new) }
    {
        match op.joined() {
            None => self.write_one(alloc, caller, start, op),
            Some(ends) if ends.from == ends.to => self.write_loop(alloc, caller, start, op, ends),
            Some(ends) => self.write_edge(alloc, caller, start, op, ends),
        }
    }

    fn write_one(&mut self, alloc: Global, caller: u64, start: u64, op: &Op) -> Result<(), NoMemory>
        requires alone { joined op.now ≡ None }
        requires there { (x : Oid) → IsTrue (is_touched op.now x) → Has self.old x }
        requires possible { (x : Oid) → IsTrue (is_touched op.now x) →
            IsTrue (is_possible op.now x (row_at self.old x).newest) }
        ensures ok { OnOk result (Rewritten self.old self.new caller start op.now) }
        ensures err { OnErr result (Unmoved self.old self.new) }
    {
        match op.touched(0) {
            Some(x) => self.write_row(alloc, caller, start, x, op),
            None => unreachable!(),
        }
    }

    fn write_row(
        &mut self,
        alloc: Global,
        caller: u64,
        start: u64,
        x: Oid,
        op: &Op,
    ) -> Result<(), NoMemory>
        requires alone { joined op.now ≡ None }
        requires touched { IsTrue (is_touched op.now x) }
        requires there { Has self.old x }
        requires possible { IsTrue (is_possible op.now x (row_at self.old x).newest) }
        ensures ok { OnOk result (Replaced self.old self.new x
            (written_row caller start op.now x (row_at self.old x))) }
        ensures err { OnErr result (self.new ≡ self.old) }
    {
        match x {
            Oid::Vertex(v) => self.vertices.write(alloc, caller, start, v.0, x, op),
            Oid::Edge(e) => self.edges.write(alloc, caller, start, e.0, x, op),
        }
    }

    fn write_loop(
        &mut self,
        alloc: Global,
        caller: u64,
        start: u64,
        op: &Op,
        ends: Joined,
    ) -> Result<(), NoMemory>
        requires joined { joined op.now ≡ Some ends }
        requires same { ends.from.0 ≡ ends.to.0 }
        requires there { (x : Oid) → IsTrue (is_touched op.now x) → Has self.old x }
        requires possible { (x : Oid) → IsTrue (is_touched op.now x) →
            IsTrue (is_possible op.now x (row_at self.old x).newest) }
        ensures ok { OnOk result (Rewritten self.old self.new caller start op.now) }
        ensures err { OnErr result (Unmoved self.old self.new) }
    {
        let mut end = self.vertices.take(alloc, ends.from.0);
        let mut edge = self.edges.take(alloc, ends.edge.0);
        let done = write_loop(alloc, caller, start, op, ends, &mut end, &mut edge);
        self.vertices.put(ends.from.0, end);
        self.edges.put(ends.edge.0, edge);
        done
    }

    fn write_edge(
        &mut self,
        alloc: Global,
        caller: u64,
        start: u64,
        op: &Op,
        ends: Joined,
    ) -> Result<(), NoMemory>
        requires joined { joined op.now ≡ Some ends }
        requires apart { ends.from.0 ≢ ends.to.0 }
        requires there { (x : Oid) → IsTrue (is_touched op.now x) → Has self.old x }
        requires possible { (x : Oid) → IsTrue (is_touched op.now x) →
            IsTrue (is_possible op.now x (row_at self.old x).newest) }
        ensures ok { OnOk result (Rewritten self.old self.new caller start op.now) }
        ensures err { OnErr result (Unmoved self.old self.new) }
    {
        let mut from = self.vertices.take(alloc, ends.from.0);
        let mut to = self.vertices.take(alloc, ends.to.0);
        let mut edge = self.edges.take(alloc, ends.edge.0);
        let done = write_between(
            alloc, caller, start, op, ends, &mut from, &mut to, &mut edge,
        );
        self.vertices.put(ends.from.0, from);
        self.vertices.put(ends.to.0, to);
        self.edges.put(ends.edge.0, edge);
        done
    }

    /// Commits an object under the timestamp, if an open transaction has written it.
    pub fn commit(&mut self, x: Oid, ts: u64)
        requires { MayCommit ts (row_at self.old x) }
        ensures { Replaced self.old self.new x (committed_row ts (row_at self.old x)) }
    {
        match x {
            Oid::Vertex(v) => self.vertices.commit(v.0, ts),
            Oid::Edge(e) => self.edges.commit(e.0, ts),
        }
    }

    /// Takes back what an open transaction wrote of an object, if one has.
    pub fn abort(&mut self, x: Oid)
        ensures { Replaced self.old self.new x (aborted_row (row_at self.old x)) }
    {
        match x {
            Oid::Vertex(v) => self.vertices.abort(v.0),
            Oid::Edge(e) => self.edges.abort(e.0),
        }
    }

    /// Drops the deltas of an object that were committed before the mark, if it has a row.
    pub fn cut_below(&mut self, x: Oid, mark: u64)
        ensures { Replaced self.old self.new x (cut_row mark (row_at self.old x)) }
    {
        match x {
            Oid::Vertex(v) => self.vertices.cut_below(v.0, mark),
            Oid::Edge(e) => self.edges.cut_below(e.0, mark),
        }
    }

    /// Whether the number of an object was given out.
    pub fn is_given(&self, x: Oid) -> bool
        ensures { result ≡ is_given (next_of self.now.vertices) (next_of self.now.edges) x }
    {
        match x {
            Oid::Vertex(v) => v.0 < self.vertices.next(),
            Oid::Edge(e) => e.0 < self.edges.next(),
        }
    }

    /// Gives out the number of the object that the write makes, if it makes one. Without memory nothing changes.
    pub fn make(&mut self, alloc: Global, op: &Op) -> Result<(), NoMemory>
        requires vertices { next_of self.old.vertices + made_vertices op.now ≤ ID_END }
        requires edges { next_of self.old.edges + made_edges op.now ≤ ID_END }
        ensures ok { OnOk result (Grown self.old self.new
            (made_vertices op.now) (made_edges op.now)) }
        ensures err { OnErr result (self.new ≡ self.old) }
    {
        match op {
            Op::CreateVertex(_) => self.vertices.add(alloc),
            Op::CreateEdge { .. } => self.edges.add(alloc),
            _ => Ok(()),
        }
    }

    /// Takes the number back that was given out for the write.
    pub fn unmake(&mut self, op: &Op)
        ensures { (before : AllObjects) →
            Grown before self.old (made_vertices op.now) (made_edges op.now) →
            Grown before self.new 0 0 }
    {
        match op {
            Op::CreateVertex(_) => self.vertices.remove_last(),
            Op::CreateEdge { .. } => self.edges.remove_last(),
            _ => {}
        }
    }

    /// Commits the objects under the timestamp, those that an open transaction has written. It takes no memory.
    pub fn commit_all(&mut self, written: &[Oid], ts: u64)
        requires { (x : AnyOid) → MayCommit ts (row_at self.old x) }
        ensures { Ended self.old self.new (committed_row ts) written.now }
    {
        for x in written {
            self.commit(*x, ts);
        }
    }

    /// Takes back what an open transaction wrote of the objects. It takes no memory.
    pub fn abort_all(&mut self, written: &[Oid])
        ensures { Ended self.old self.new aborted_row written.now }
    {
        for x in written {
            self.abort(*x);
        }
    }
}
