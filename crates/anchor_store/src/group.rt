ghost use Rattle.std.specs.Prelude.{◌≡◌, ◌∷◌, [], OnOk, MatchOption, length};
ghost use Rattle.anchor_store.specs.Groups.{joined, joined_all};

use crate::NoMemory;
use std::alloc::Global;
use std::marker::Model;
use undo_law::{Dated, DatedDeltas};

/// Deltas in groups that grow from the oldest on. Contracts see the groups, the newest first, and the deltas of each, the
/// newest first.
#[derive(Drop)]
pub(crate) struct Groups<D> {
    /// The oldest group first, and in each the oldest delta first.
    groups: Vec<Vec<Dated<D>>>,
}

impl<D> Model for Groups<D> {
    ghost use Rattle.std.specs.Prelude.{List};
    ghost use Rattle.undo_law.specs.declared.dated.Dated.{Dated};
    ghost use Rattle.anchor_store.specs.Groups.{turned};

    ghost Value = { List (List (Dated D)) };

    ghost view = { λ g. turned g.groups.items };
}

impl<D: Drop> Groups<D> {
    /// No groups yet. Takes no memory.
    pub fn new(alloc: Global) -> Groups<D>
        ensures { result ≡ [] }
    {
        Groups {
            groups: Vec::new(alloc),
        }
    }

    /// The number of groups.
    pub fn len(&self) -> usize
        ensures { result ≡ length self.now }
    {
        self.groups.len()
    }

    /// Adds a delta that is newer than all that are there: to the newest group where that is smaller than the interval,
    /// and in a group of its own where not.
    pub fn add(&mut self, alloc: Global, dated: Dated<D>, interval: u64) -> Result<(), NoMemory>
        ensures { OnOk result (self.new ≡ joined interval dated self.old) }
    {
        match self.groups.last_mut() {
            Some(group) if (group.len() as u64) < interval => {
                group.push(dated)?;
                Ok(())
            }
            _ => {
                let mut group = Vec::with_capacity(alloc, 1)?;
                group.push(dated)?;
                self.groups.push(group)?;
                Ok(())
            }
        }
    }

    /// Adds deltas that are newer than all that are there, of which the newest stands first.
    pub fn add_all(
        &mut self,
        alloc: Global,
        deltas: DatedDeltas<D>,
        interval: u64,
    ) -> Result<(), NoMemory>
        ensures { OnOk result (self.new ≡ joined_all interval deltas self.old) }
    {
        let mut deltas = deltas.into_vec();
        while let Some(dated) = deltas.pop() {
            self.add(alloc, dated, interval)?;
        }
        Ok(())
    }

    /// Takes the newest group out.
    pub fn pop_newest(&mut self) -> Option<DatedDeltas<D>>
        ensures { MatchOption result ((self.old ≡ []) × (self.new ≡ []))
            (λ group. self.old ≡ group ∷ self.new) }
    {
        let mut group = self.groups.pop()?;
        group.reverse();
        Some(DatedDeltas::from_vec(group))
    }
}
