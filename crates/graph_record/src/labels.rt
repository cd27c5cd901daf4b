ghost use Rattle.std.specs.Prelude.{◌≡◌, [], length, not, IfOk, IfErr, OnOk, OnErr, IsOk, IsTrue};
ghost use Rattle.graph_value.specs.Name.{name_cmp};
ghost use Rattle.graph_record.specs.Ascending.{IsAscendingNames};
ghost use Rattle.graph_record.specs.Edits.{has, added, removed};
ghost use Rattle.graph_record.specs.Place.{IsAt, IsGapFor, itself};

use crate::NoMemory;
use crate::shared::{Element, Shared};
use graph_value::Name;
use std::alloc::Global;
use std::marker::Model;

/// The labels of a vertex, ascending, each once. Contracts see the list of them. A copy shares them: an edit of a list
/// that is shared copies it first, and may want memory for that.
#[derive(Debug, Drop)]
pub struct Labels {
    items: Shared<Name>,
}

impl Model for Labels {
    ghost use Rattle.std.specs.Prelude.{List, ℕ};
    ghost use Rattle.graph_record.specs.Ascending.{IsAscendingNames};

    ghost Value = { List (List ℕ) };

    ghost view = { λ l. l.items };

    ghost invariant = { λ l. IsAscendingNames l.items };
}

impl Element for Name {
    fn copy_all(alloc: Global, items: &[Name]) -> Result<Vec<Name>, NoMemory> {
        let mut copies = Vec::with_capacity(alloc, items.len())?;
        for name in items {
            copies.push(name.copy()?)?;
        }
        Ok(copies)
    }
}

impl Labels {
    pub fn new(alloc: Global) -> Labels
        ensures { result ≡ [] }
    {
        Labels {
            items: Shared::new(alloc),
        }
    }

    /// How many labels there are.
    pub fn len(&self) -> usize
        ensures number { result ≡ length self.now }
        ensures ascending { IsAscendingNames self.now }
    {
        self.as_slice().len()
    }

    /// The labels, ascending.
    pub fn as_slice(&self) -> &[Name]
        ensures value { result.now ≡ self.now }
        ensures ascending { IsAscendingNames self.now }
    {
        self.items.as_slice()
    }

    /// Whether the label is there.
    pub fn contains(&self, name: &str) -> bool
        ensures { result ≡ has name_cmp name.now self.now }
    {
        self.place(name).is_ok()
    }

    /// Puts the label in its place and says whether it is new. Only a new label can want for memory,
    /// and then nothing changes.
    pub fn add(&mut self, name: Name) -> Result<bool, NoMemory>
        ensures ok { OnOk result (self.new ≡ added name_cmp name self.old) }
        ensures is_new { IfOk result (λ is_new. is_new ≡ not (has name_cmp name self.old)) }
        ensures ascending { IsAscendingNames self.old }
        ensures err { OnErr result (self.new ≡ self.old) }
        ensures there { IsTrue (has name_cmp name self.old) → IsOk result }
    {
        match self.place(name.as_str()) {
            Ok(_) => Ok(false),
            Err(at) => {
                self.items.insert(at, name)?;
                Ok(true)
            }
        }
    }

    /// Takes the label away and says whether it was there. Only labels that are shared can want for memory, and then
    /// nothing changes.
    pub fn remove(&mut self, name: &str) -> Result<bool, NoMemory>
        ensures ok { OnOk result (self.new ≡ removed name_cmp name.now self.old) }
        ensures was_there { IfOk result (λ was_there. was_there ≡ has name_cmp name.now self.old) }
        ensures ascending { IsAscendingNames self.old }
        ensures err { OnErr result (self.new ≡ self.old) }
    {
        match self.place(name) {
            Ok(at) => {
                self.items.remove(at)?;
                Ok(true)
            }
            Err(_) => Ok(false),
        }
    }

    /// The same labels, shared. It allocates nothing: the error says that they have as many owners as can be counted.
    pub fn copy(&self) -> Result<Labels, NoMemory>
        ensures { IfOk result (λ l. l ≡ self.now) }
    {
        Ok(Labels {
            items: self.items.copy()?,
        })
    }

    // Where the label stands, or where it would go.
    fn place(&self, name: &str) -> Result<usize, usize>
        ensures found { IfOk result (IsAt name_cmp itself name.now self.now) }
        ensures absent { IfErr result (IsGapFor name_cmp itself name.now self.now) }
    {
        self.items
            .as_slice()
            .binary_search_by(|known| known.as_str().cmp(name))
    }
}
