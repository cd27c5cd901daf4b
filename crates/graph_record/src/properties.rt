ghost use Rattle.std.specs.Prelude.{◌≡◌, [], length, IfOk, IfErr, OnOk, OnErr, IsTrue};
ghost use Rattle.std.specs.Option.{option_copied};
ghost use Rattle.std.specs.FinMap.{find, put};
ghost use Rattle.graph_value.specs.Name.{name_cmp};
ghost use Rattle.graph_record.specs.Ascending.{IsAscendingProperties};
ghost use Rattle.graph_record.specs.Edits.{removed_key};
ghost use Rattle.graph_record.specs.Place.{IsAt, IsGapFor, key_of};
ghost use Rattle.graph_record.specs.Stored.{IsPropertyList, are_storable, set_property};
ghost use Rattle.graph_value.specs.Storable.{is_storable};

use crate::NoMemory;
use crate::shared::{Element, Shared};
use graph_value::{Name, Value, storable};
use std::alloc::Global;
use std::marker::Model;

/// The properties of an object, ascending by name, each name once, with values that an object may keep. Contracts see
/// the list of them. A copy shares them: an edit of a list that is shared copies it first, and may want memory for that.
#[derive(Debug, Drop)]
pub struct Properties {
    items: Shared<(Name, Value)>,
}

impl Model for Properties {
    ghost use Rattle.std.specs.Prelude.{List, ℕ};
    ghost use Rattle.graph_value.specs.declared.value.Value.{Value as PropertyValue};
    ghost use Rattle.std.specs.Coded.{codes};
    ghost use Rattle.graph_value.specs.contracts.value.Value as property_value;
    ghost use Rattle.graph_record.specs.Stored.{IsPropertyList};

    ghost Value = { List (List ℕ × PropertyValue) };

    ghost coded = { Prim.hlevel (codes, property_value.the_row.coded) };

    ghost view = { λ p. p.items };

    ghost invariant = { λ p. IsPropertyList p.items };
}

impl Element for (Name, Value) {
    fn copy_all(alloc: Global, items: &[(Name, Value)]) -> Result<Vec<(Name, Value)>, NoMemory> {
        let mut copies = Vec::with_capacity(alloc, items.len())?;
        for (name, value) in items {
            copies.push((name.copy()?, value.copy(alloc)?))?;
        }
        Ok(copies)
    }
}

impl Properties {
    pub fn new(alloc: Global) -> Properties
        ensures { result ≡ [] }
    {
        Properties {
            items: Shared::new(alloc),
        }
    }

    /// How many properties there are.
    pub fn len(&self) -> usize
        ensures number { result ≡ length self.now }
        ensures ascending { IsAscendingProperties self.now }
    {
        self.as_slice().len()
    }

    /// The properties, ascending by name.
    pub fn as_slice(&self) -> &[(Name, Value)]
        ensures value { result.now ≡ self.now }
        ensures ascending { IsAscendingProperties self.now }
        ensures storable { IsTrue (are_storable self.now) }
    {
        self.items.as_slice()
    }

    /// The value that stands under the name, or `None` where no property has that name.
    pub fn get(&self, name: &str) -> Option<&Value>
        ensures value { option_copied result ≡ find name_cmp name.now self.now }
        ensures ascending { IsAscendingProperties self.now }
    {
        match self.place(name) {
            Ok(at) => Some(&self.items.as_slice()[at].1),
            Err(_) => None,
        }
    }

    /// The name, which shares its text with the property of that name where there is one. It allocates nothing: the error
    /// says that the name has as many owners as can be counted.
    pub fn shared_name(&self, name: &Name) -> Result<Name, NoMemory>
        ensures { IfOk result (λ n. n ≡ name.now) }
    {
        match self.place(name.as_str()) {
            Ok(at) => self.items.as_slice()[at].0.copy(),
            Err(_) => name.copy(),
        }
    }

    /// Gives the name this value, and gives back the one that it had, or `None` where it had none. A value that no
    /// object keeps, as null, takes the property away. Only a new name and properties that are shared can want for
    /// memory, and then nothing changes.
    pub fn set(&mut self, name: &Name, value: Value) -> Result<Option<Value>, NoMemory>
        ensures ok { OnOk result (self.new ≡ set_property name.now value self.old) }
        ensures former { IfOk result (λ former. former ≡ find name_cmp name.now self.old) }
        ensures form { IsPropertyList self.old }
        ensures err { OnErr result (self.new ≡ self.old) }
    {
        if storable(&value) {
            self.put(name, value)
        } else {
            self.remove(name.as_str())
        }
    }

    fn put(&mut self, name: &Name, value: Value) -> Result<Option<Value>, NoMemory>
        requires { IsTrue (is_storable value) }
        ensures ok { OnOk result (self.new ≡ put name_cmp name.now value self.old) }
        ensures former { IfOk result (λ former. former ≡ find name_cmp name.now self.old) }
        ensures form { IsPropertyList self.old }
        ensures err { OnErr result (self.new ≡ self.old) }
    {
        match self.place(name.as_str()) {
            Ok(at) => {
                let former = self.items.replace_value(at, value)?;
                Ok(Some(former))
            }
            Err(at) => {
                self.items.insert(at, (name.copy()?, value))?;
                Ok(None)
            }
        }
    }

    /// Takes the property of that name away and gives back its value, or `None` where there is no such property. Only
    /// properties that are shared can want for memory, and then nothing changes.
    pub fn remove(&mut self, name: &str) -> Result<Option<Value>, NoMemory>
        ensures value { IfOk result (λ value. value ≡ find name_cmp name.now self.old) }
        ensures ok { OnOk result (self.new ≡ removed_key name_cmp name.now self.old) }
        ensures form { IsPropertyList self.old }
        ensures err { OnErr result (self.new ≡ self.old) }
    {
        match self.place(name) {
            Ok(at) => {
                let (_, value) = self.items.remove(at)?;
                Ok(Some(value))
            }
            Err(_) => Ok(None),
        }
    }

    /// The same properties, shared. It allocates nothing: the error says that they have as many owners as can be
    /// counted.
    pub fn copy(&self) -> Result<Properties, NoMemory>
        ensures { IfOk result (λ p. p ≡ self.now) }
    {
        Ok(Properties {
            items: self.items.copy()?,
        })
    }

    // Where the name stands, or where it would go.
    fn place(&self, name: &str) -> Result<usize, usize>
        ensures found { IfOk result (IsAt name_cmp key_of name.now self.now) }
        ensures absent { IfErr result (IsGapFor name_cmp key_of name.now self.now) }
    {
        self.items
            .as_slice()
            .binary_search_by(|(known, _)| known.as_str().cmp(name))
    }
}
