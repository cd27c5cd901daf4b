ghost use Rattle.std.specs.Prelude.{◌≡◌, ◌≤◌, ◌<◌, ◌+◌, ◌-◌, ◌++◌, ◌∷◌, [], None, IfSome, IfNone, IsTrue, OnOk, OnErr, length, take, unwrap_or};
ghost use Rattle.std.specs.Option.{option_copied};
ghost use Rattle.undo_delta.specs.Change.{is_possible};
ghost use Rattle.undo_delta.specs.Touch.{is_touched, joined};
ghost use Rattle.front_core.specs.Rows.{aborted_row, committed_row, cut_row, no_row, written_row, MayCommit};
ghost use Rattle.front_core.specs.Tables.{HasRow, next_of, row_of, with_row};

use crate::NoMemory;
use crate::row::Row;
use graph_value::Oid;
use std::alloc::Global;
use std::marker::Model;
use std::mem;
use undo_delta::Op;
use world_model::ID_END;

/// The rows of one kind of objects, found by the objects' numbers. Contracts see the first number and the list.
#[derive(Drop)]
pub(crate) struct Rows {
    first: u64,
    rows: Vec<Row>,
}

impl Model for Rows {
    ghost use Rattle.std.specs.Prelude.{◌≤◌, ◌+◌, length};
    ghost use Rattle.std.specs.Coded.{codes};
    ghost use Rattle.front_core.specs.Tables.{Numbered};
    ghost use Rattle.graph_value.specs.contracts.value.Value as property_value;
    ghost use Rattle.world_model.specs.declared.TheConstants.{ID_END};

    ghost Value = { Numbered };

    ghost coded = { Prim.hlevel (codes, property_value.the_row.coded) };

    ghost view = { λ t. record { first = t.first; rows = t.rows.items } };

    ghost invariant = { λ t. t.first + length t.rows.items ≤ ID_END };
}

impl Rows {
    /// No rows yet; the first one will be for this number.
    pub fn new(alloc: Global, first: u64) -> Rows
        requires { first ≤ ID_END }
        ensures { result ≡ record { first = first; rows = [] } }
    {
        Rows {
            first,
            rows: Vec::new(alloc),
        }
    }

    /// The number of the first row.
    pub fn first(&self) -> u64
        ensures { result ≡ self.now.first }
    {
        self.first
    }

    /// The number that the next object gets.
    pub fn next(&self) -> u64
        ensures value { result ≡ next_of self.now }
        ensures bound { next_of self.now ≤ ID_END }
    {
        self.first + self.rows.len() as u64
    }

    /// Where the row of this number stands, `None` where it has none.
    fn place(&self, number: u64) -> Option<usize>
        ensures found { IfSome result (λ at.
            (at < length self.now.rows) × (number ≡ self.now.first + at)) }
        ensures absent { IfNone result ((HasRow self.now number) → ⊥) }
    {
        if number < self.first {
            return None;
        }
        let at = number - self.first;
        if at < self.rows.len() as u64 {
            Some(at as usize)
        } else {
            None
        }
    }

    /// The row of this number, `None` where it has none.
    pub fn get(&self, number: u64) -> Option<&Row>
        ensures { unwrap_or (option_copied result) no_row ≡ row_of self.now number }
    {
        match self.place(number) {
            Some(at) => Some(&self.rows[at]),
            None => None,
        }
    }

    /// Adds a row of an object that nobody has made yet. Without memory nothing changes.
    pub fn add(&mut self, alloc: Global) -> Result<(), NoMemory>
        requires { next_of self.old < ID_END }
        ensures ok { OnOk result (self.new
            ≡ record self.old { rows = self.old.rows ++ no_row ∷ [] }) }
        ensures err { OnErr result (self.new ≡ self.old) }
    {
        self.rows.push(Row::new(alloc))?;
        Ok(())
    }

    /// Takes the last row away.
    pub fn remove_last(&mut self)
        ensures { self.new
            ≡ record self.old { rows = take (length self.old.rows - 1) self.old.rows } }
    {
        let _ = self.rows.pop();
    }

    /// Takes a row out, and leaves that of an object that nobody has made.
    pub fn take(&mut self, alloc: Global, number: u64) -> Row
        requires { HasRow self.old number }
        ensures value { result ≡ row_of self.old number }
        ensures rest { self.new ≡ with_row self.old number no_row }
    {
        let at = (number - self.first) as usize;
        mem::replace(&mut self.rows[at], Row::new(alloc))
    }

    /// Puts a row in its place.
    pub fn put(&mut self, number: u64, row: Row)
        requires { HasRow self.old number }
        ensures { self.new ≡ with_row self.old number row }
    {
        let at = (number - self.first) as usize;
        self.rows[at] = row;
    }

    /// Does the write of the caller's transaction on the object of this number alone. Without memory nothing changes.
    pub fn write(
        &mut self,
        alloc: Global,
        caller: u64,
        start: u64,
        number: u64,
        x: Oid,
        op: &Op,
    ) -> Result<(), NoMemory>
        requires there { HasRow self.old number }
        requires touched { IsTrue (is_touched op.now x) }
        requires possible { IsTrue (is_possible op.now x (row_of self.old number).newest) }
        requires alone { joined op.now ≡ None }
        ensures ok { OnOk result (self.new
            ≡ with_row self.old number
            (written_row caller start op.now x (row_of self.old number))) }
        ensures err { OnErr result (self.new ≡ self.old) }
    {
        let at = (number - self.first) as usize;
        self.rows[at].write(alloc, caller, start, x, op)
    }

    /// Commits the row of this number, if it has one.
    pub fn commit(&mut self, number: u64, ts: u64)
        requires { MayCommit ts (row_of self.old number) }
        ensures { self.new ≡ with_row self.old number (committed_row ts (row_of self.old number)) }
    {
        if let Some(at) = self.place(number) {
            self.rows[at].commit(ts);
        }
    }

    /// Takes back what an open transaction wrote in the row of this number, if it has one.
    pub fn abort(&mut self, number: u64)
        ensures { self.new ≡ with_row self.old number (aborted_row (row_of self.old number)) }
    {
        if let Some(at) = self.place(number) {
            self.rows[at].abort();
        }
    }

    /// Drops the deltas before the mark in the row of this number, if it has one.
    pub fn cut_below(&mut self, number: u64, mark: u64)
        ensures { self.new ≡ with_row self.old number (cut_row mark (row_of self.old number)) }
    {
        if let Some(at) = self.place(number) {
            self.rows[at].cut_below(mark);
        }
    }
}
