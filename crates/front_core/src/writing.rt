//! The one way of a write: its objects are there, nothing stands in its way, and it changes something; then what it
//! needs is made ready, and it is done.
ghost use Rattle.std.specs.Prelude.{◌≡◌, ℕ, [], Some, None, IfErr, IfOk, IsTrue, OnErr, OnOk, drop, not, unwrap_or};
ghost use Rattle.std.specs.Option.{option_copied};
ghost use Rattle.graph_value.specs.Value.{same_value};
ghost use Rattle.graph_value.specs.declared.id.Oid.{Oid as AnyOid};
ghost use Rattle.graph_value.specs.declared.id.Oid.TheVariants as oid;
ghost use Rattle.graph_record.specs.Graph.{Graph};
ghost use Rattle.graph_record.specs.declared.object.Object.TheVariants.{Dead};
ghost use Rattle.undo_delta.specs.Change.{has_label, is_possible, is_without_edges, kept, value_at};
ghost use Rattle.undo_delta.specs.Touch.{is_touched, touches};
ghost use Rattle.undo_delta.specs.declared.ask.Ask.{Ask as AnyAsk};
ghost use Rattle.world_model.specs.Asked.{named, op_of};
ghost use Rattle.world_model.specs.Op.{changes};
ghost use Rattle.world_model.specs.Refusals.{conflict, has_edges, id_end, missing, write_refusal};
ghost use Rattle.world_model.specs.Step.{refused, step, written_world};
ghost use Rattle.world_model.specs.World.{World, Txn, rival_at, view_of};
ghost use Rattle.world_model.specs.Reply.{reply_of};
ghost use Rattle.front_core.specs.Books.{Noted, place_in};
ghost use Rattle.front_core.specs.Keeps.{Keeps, KeepsSome, Obeys, ObeysAll};
ghost use Rattle.front_core.specs.Objects.{Has, Rewritten, Unmoved, row_at, unwritten};
ghost use Rattle.front_core.specs.Opened.{Allowed, Asked, IsAsked, IsReady, MayWrite, Opened};

use crate::NoMemory;
use crate::effects::{deltas_left, has_label, has_value, is_without_edges, named, wrote};
use crate::state::State;
use graph_record::Object;
use graph_value::{EdgeId, Name, Oid, Value, VertexId};
use std::alloc::{AllocError, Global};
use txn_manager::Rival;
use undo_delta::{Ask, Op, is_kept_value};
use world_model::{Answer, Event, ID_END, Refused, When, Wrote};

impl State {
    /// Does what the caller asks for.
    pub fn write(&mut self, alloc: Global, caller: u64, ask: Ask) -> Answer
        requires { KeepsSome self.old }
        ensures { ObeysAll self.old self.new
            (record { caller = caller; event = Event.Write ask; reply = reply_of result }) }
    {
        match self.ready(caller, &ask) {
            Ok((place, start)) => {
                let op = self.op_of(caller, start, ask);
                self.write_op(alloc, caller, start, place, &op)
            }
            Err(why) => Answer::Refused(why),
        }
    }

    /// Where the caller's transaction stands and when it began, where it has one that sees what the write names.
    fn ready(&self, caller: u64, ask: &Ask) -> Result<(usize, u64), Refused>
        ensures placed { IfOk result (λ r. place_in self.now.transactions.txns caller ≡ Some r.0) }
        ensures seen { IfOk result (λ r. (w : World) → Keeps self.now w →
            IsReady self.now w caller ask.now r.1) }
        ensures refused { IfErr result (λ why. (w : World) → Keeps self.now w →
            step w caller (Event.Write ask.now) ≡ refused w why) }
    {
        let Some(place) = self.transactions.find(caller) else {
            return Err(Refused::NoTxn);
        };
        let start = self.transactions.at(place).start;
        match self.missing(caller, start, ask) {
            Some(why) => Err(why),
            None => Ok((place, start)),
        }
    }

    /// The first of the objects that a write names which isn't in the caller's view.
    fn missing(&self, caller: u64, start: u64, ask: &Ask) -> Option<Refused>
        ensures { (w : World) (p : Txn) → Opened self.now w caller start p →
            result ≡ missing (view_of w p) (named ask.now) }
    {
        let mut i = 0;
        while let Some(x) = named(ask, i) {
            if self.outline(caller, start, x, When::Own).is_absent() {
                return Some(Refused::Missing(x));
            }
            i += 1;
        }
        None
    }

    /// The write that is asked for: with the number that a created object gets, and the ends that a deleted edge has.
    fn op_of(&self, caller: u64, start: u64, ask: Ask) -> Op
        ensures { (w : World) (p : Txn) → Opened self.now w caller start p →
            result ≡ op_of w (view_of w p) ask }
    {
        match ask {
            Ask::CreateVertex => Op::CreateVertex(VertexId(self.objects.vertices.next())),
            Ask::DeleteVertex(v) => Op::DeleteVertex(v),
            Ask::AddLabel(v, name) => Op::AddLabel(v, name),
            Ask::RemoveLabel(v, name) => Op::RemoveLabel(v, name),
            Ask::SetVertexProp(v, name, value) => Op::SetVertexProp(v, name, value),
            Ask::CreateEdge { from, kind, to } => Op::CreateEdge {
                id: EdgeId(self.objects.edges.next()),
                from,
                kind,
                to,
            },
            Ask::DeleteEdge(id) => {
                let outline = self.outline(caller, start, Oid::Edge(id), When::Own);
                let (from, to) = outline.ends();
                Op::DeleteEdge { id, from, to }
            }
            Ask::SetEdgeProp(e, name, value) => Op::SetEdgeProp(e, name, value),
        }
    }

    /// Does the write, whose named objects are there.
    fn write_op(&mut self, alloc: Global, caller: u64, start: u64, place: usize, op: &Op) -> Answer
        requires placed { place_in self.old.transactions.txns caller ≡ Some place }
        requires opened { IsAsked self.old caller start op.now }
        ensures { (w : World) (p : Txn) (ask : AnyAsk) → Opened self.old w caller start p →
            Asked w p ask op.now → Obeys w self.new
            (record { caller = caller; event = Event.Write ask; reply = reply_of result }) }
    {
        if let Some(why) = self.refusal(caller, start, op) {
            return Answer::Refused(why);
        }
        if !self.changes(op) {
            return Answer::Wrote(Wrote::Unchanged);
        }
        match self.perform(alloc, caller, start, place, op) {
            Ok(()) => Answer::Wrote(wrote(op)),
            Err(_) => Answer::Refused(Refused::NoMemory),
        }
    }

    /// Why the write is refused, whose named objects are there.
    fn refusal(&self, caller: u64, start: u64, op: &Op) -> Option<Refused>
        ensures { (w : World) (p : Txn) (ask : AnyAsk) → Opened self.now w caller start p →
            Asked w p ask op.now →
            result ≡ write_refusal w p ask }
    {
        if let Some(why) = self.conflict(caller, start, op) {
            return Some(why);
        }
        if let Some(why) = self.has_edges(op) {
            return Some(why);
        }
        id_end(op)
    }

    /// The first of the objects that the write touches which another transaction has written.
    fn conflict(&self, caller: u64, start: u64, op: &Op) -> Option<Refused>
        ensures { (w : World) (p : Txn) → Opened self.now w caller start p →
            result ≡ conflict w p (touches op.now) }
    {
        let mut i = 0;
        while let Some(x) = op.touched(i) {
            if let Some(rival) = self.rival(caller, start, x) {
                return Some(Refused::Conflict(x, rival));
            }
            i += 1;
        }
        None
    }

    /// Who stands in the way of a write of the object.
    fn rival(&self, caller: u64, start: u64, x: Oid) -> Option<Rival>
        ensures { (w : World) (p : Txn) → Opened self.now w caller start p →
            result ≡ rival_at w p x }
    {
        match self.objects.row(x) {
            Some(row) => row.rival(caller, start),
            None => None,
        }
    }

    /// A vertex that would be deleted has edges. No other transaction has written it.
    fn has_edges(&self, op: &Op) -> Option<Refused>
        ensures { (w : World) (caller start : ℕ) (p : Txn) (ask : AnyAsk) →
            Opened self.now w caller start p →
            Asked w p ask op.now → conflict w p (touches op.now) ≡ None →
            result ≡ has_edges (view_of w p) ask }
    {
        match op {
            Op::DeleteVertex(v) if !self.is_without_edges(*v) => Some(Refused::HasEdges(*v)),
            _ => None,
        }
    }

    /// The object with all writes that were done on it.
    fn newest(&self, x: Oid) -> Option<&Object>
        ensures { unwrap_or (option_copied result) Dead ≡ (row_at self.now.objects x).newest }
    {
        match self.objects.row(x) {
            Some(row) => Some(row.newest()),
            None => None,
        }
    }

    /// Whether the write would change anything. No other transaction has written what it touches.
    fn changes(&self, op: &Op) -> bool
        ensures { (w : World) (caller start : ℕ) (p : Txn) → Opened self.now w caller start p →
            conflict w p (touches op.now) ≡ None → result ≡ changes op.now (view_of w p) }
    {
        match op {
            Op::AddLabel(v, name) => !self.has_label(*v, name),
            Op::RemoveLabel(v, name) => self.has_label(*v, name),
            Op::SetVertexProp(v, name, value) => self.is_set(Oid::Vertex(*v), name, value),
            Op::SetEdgeProp(e, name, value) => self.is_set(Oid::Edge(*e), name, value),
            _ => true,
        }
    }

    /// Whether the vertex has no edges.
    fn is_without_edges(&self, v: VertexId) -> bool
        ensures { result ≡ is_without_edges (row_at self.now.objects (oid.Vertex v)).newest }
    {
        match self.newest(Oid::Vertex(v)) {
            Some(object) => is_without_edges(object),
            None => false,
        }
    }

    /// Whether the vertex has the label.
    fn has_label(&self, v: VertexId, name: &Name) -> bool
        ensures { result ≡ has_label name.now (row_at self.now.objects (oid.Vertex v)).newest }
    {
        match self.newest(Oid::Vertex(v)) {
            Some(object) => has_label(object, name),
            None => false,
        }
    }

    /// Whether the property would get another value.
    fn is_set(&self, x: Oid, name: &Name, value: &Value) -> bool
        ensures { result
            ≡ not (same_value (value_at name.now (row_at self.now.objects x).newest)
            (kept value.now)) }
    {
        match self.newest(x) {
            Some(object) => !has_value(object, name, value),
            None => !is_kept_value(&Value::Null, value),
        }
    }

    /// Does a write that is allowed and changes something. Without memory, or where the deltas couldn't be counted any
    /// more, the same world is kept.
    fn perform(
        &mut self,
        alloc: Global,
        caller: u64,
        start: u64,
        place: usize,
        op: &Op,
    ) -> Result<(), NoMemory>
        requires placed { place_in self.old.transactions.txns caller ≡ Some place }
        requires allowed { MayWrite self.old caller start op.now }
        ensures ok { OnOk result ((w : World) (p : Txn) (ask : AnyAsk) →
            Opened self.old w caller start p →
            Asked w p ask op.now → Allowed w p ask op.now →
            Keeps self.new (written_world w caller ask op.now)) }
        ensures err { OnErr result ((w : World) → Keeps self.old w → Keeps self.new w) }
    {
        let deltas = deltas_left(op);
        let Some(all) = self.tally.all.checked_add(deltas) else {
            return Err(AllocError);
        };
        self.histories.make(alloc, op)?;
        self.objects.make(alloc, op)?;
        match self.write_noted(alloc, caller, start, place, op, 0) {
            Ok(()) => {
                self.transactions.count(caller, place, deltas);
                self.tally.all = all;
                Ok(())
            }
            Err(refused) => {
                self.objects.unmake(op);
                Err(refused)
            }
        }
    }

    /// Notes each object that the write touches, from the i-th on, as written by the caller's transaction, if it isn't
    /// yet, and does the write. Without memory nothing changes.
    fn write_noted(
        &mut self,
        alloc: Global,
        caller: u64,
        start: u64,
        place: usize,
        op: &Op,
        i: usize,
    ) -> Result<(), NoMemory>
        requires placed { place_in self.old.transactions.txns caller ≡ Some place }
        requires there { (x : AnyOid) → IsTrue (is_touched op.now x) → Has self.old.objects x }
        requires possible { (x : AnyOid) → IsTrue (is_touched op.now x) →
            IsTrue (is_possible op.now x (row_at self.old.objects x).newest) }
        ensures rows { OnOk result (Rewritten self.old.objects self.new.objects
            caller start op.now) }
        ensures noted { OnOk result (Noted self.old.transactions self.new.transactions caller
            (unwritten self.old.objects (drop i (touches op.now)))) }
        ensures rows_stay { OnErr result (Unmoved self.old.objects self.new.objects) }
        ensures book_stays { OnErr result (Noted self.old.transactions self.new.transactions
            caller []) }
        ensures histories_stay { self.new.histories ≡ self.old.histories }
        ensures tally_stays { self.new.tally ≡ self.old.tally }
    {
        let Some(x) = op.touched(i) else {
            return self.objects.write(alloc, caller, start, op);
        };
        if self.objects.is_written(x) {
            return self.write_noted(alloc, caller, start, place, op, i + 1);
        }
        self.transactions.note(caller, place, x)?;
        let done = self.write_noted(alloc, caller, start, place, op, i + 1);
        if done.is_err() {
            self.transactions.forget(caller, place);
        }
        done
    }
}

/// No number is left for the object that the write would make.
fn id_end(op: &Op) -> Option<Refused>
    ensures { (w : World) (g : Graph) (ask : AnyAsk) → op.now ≡ op_of w g ask →
        result ≡ id_end w ask }
{
    match op {
        Op::CreateVertex(v) if v.0 >= ID_END => Some(Refused::IdEnd),
        Op::CreateEdge { id, .. } if id.0 >= ID_END => Some(Refused::IdEnd),
        _ => None,
    }
}
