ghost use Rattle.std.specs.Prelude.{◌≡◌, IfOk};
ghost use Rattle.graph_value.specs.declared.value.Value.TheVariants.{Null};

use crate::NoMemory;
use graph_value::{Name, Value};
use std::alloc::Global;
use std::marker::Model;

/// A property's name and the value that it had, behind a pointer so that a delta is small. Contracts see the two.
#[derive(Debug, Drop)]
pub struct Setting {
    pair: Box<(Name, Value)>,
}

impl Model for Setting {
    ghost use Rattle.std.specs.Prelude.{List, ℕ, box_value};
    ghost use Rattle.std.specs.Coded.{codes};
    ghost use Rattle.graph_value.specs.declared.value.Value.{Value as PropertyValue};
    ghost use Rattle.graph_value.specs.contracts.value.Value as property_value;

    ghost Value = { List ℕ × PropertyValue };

    ghost coded = { Prim.hlevel (codes, property_value.the_row.coded) };

    ghost view = { λ s. box_value s.pair };
}

impl Setting {
    /// Room for the value of the property, which is null until [`Setting::fill`] puts one there.
    pub fn room(alloc: Global, name: Name) -> Result<Setting, NoMemory>
        ensures { IfOk result (λ s. s ≡ (name, Null)) }
    {
        let pair = Box::new(alloc, (name, Value::Null))?;
        Ok(Setting { pair })
    }

    /// Puts the value there. It takes no memory.
    pub fn fill(&mut self, value: Value)
        ensures { self.new ≡ (self.old.0, value) }
    {
        self.pair.1 = value;
    }

    pub fn name(&self) -> &Name
        ensures { result.now ≡ self.now.0 }
    {
        &self.pair.0
    }

    pub fn value(&self) -> &Value
        ensures { result.now ≡ self.now.1 }
    {
        &self.pair.1
    }

    /// The same, in memory of its own.
    pub fn copy(&self, alloc: Global) -> Result<Setting, NoMemory>
        ensures { IfOk result (λ s. s ≡ self.now) }
    {
        let value = self.value().copy(alloc)?;
        let mut copy = Setting::room(alloc, self.name().copy()?)?;
        copy.fill(value);
        Ok(copy)
    }
}
