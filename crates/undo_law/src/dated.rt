ghost use Rattle.std.specs.Prelude.{◌≡◌, [], ◌∷◌, ◌++◌, length, OnErr, OnOk};

use crate::NoMemory;
use std::alloc::Global;
use std::marker::Model;

/// A delta with the timestamp of the commit that left it.
#[derive(Debug, Drop)]
pub struct Dated<D> {
    pub ts: u64,
    pub delta: D,
}

/// Deltas with their timestamps, the newest first. Contracts see the list of them.
#[derive(Debug, Drop)]
pub struct DatedDeltas<D> {
    items: Vec<Dated<D>>,
}

impl<D> Model for DatedDeltas<D> {
    ghost use Rattle.std.specs.Prelude.{List};
    ghost use Rattle.undo_law.specs.declared.dated.Dated.{Dated};

    ghost Value = { List (Dated D) };

    ghost view = { λ d. d.items.items };
}

impl<D> DatedDeltas<D> {
    /// No delta. Takes no memory.
    pub fn new(alloc: Global) -> DatedDeltas<D>
        ensures { result ≡ [] }
    {
        DatedDeltas {
            items: Vec::new(alloc),
        }
    }

    /// The deltas of the vector, in its order.
    pub fn from_vec(items: Vec<Dated<D>>) -> DatedDeltas<D>
        ensures { result ≡ items.items }
    {
        DatedDeltas { items }
    }

    /// The deltas as a vector, in their order.
    pub fn into_vec(self) -> Vec<Dated<D>>
        ensures { result.items ≡ self }
    {
        let DatedDeltas { items } = self;
        items
    }

    /// The deltas, the newest first.
    pub fn as_slice(&self) -> &[Dated<D>]
        ensures { result.now ≡ self.now }
    {
        self.items.as_slice()
    }

    /// The number of deltas.
    pub fn len(&self) -> u64
        ensures { result ≡ length self.now }
    {
        self.items.len() as u64
    }

    /// Adds a delta that is older than all that are there. Without memory the list stays as it was.
    pub fn push(&mut self, dated: Dated<D>) -> Result<(), NoMemory>
    where
        D: Drop,
        ensures ok { OnOk result (self.new ≡ self.old ++ dated ∷ []) }
        ensures err { OnErr result (self.new ≡ self.old) }
    {
        self.items.push(dated)?;
        Ok(())
    }
}
