ghost use Rattle.std.specs.Prelude.{◌≡◌, IfOk, OnOk, OnErr};
ghost use Rattle.graph_record.specs.declared.object.Object.TheVariants.{Dead};

use crate::NoMemory;
use graph_record::Object;
use std::alloc::Global;
use std::marker::Model;
use std::mem;

/// An object that was deleted, behind a pointer so that a delta is small. Contracts see the object.
#[derive(Debug, Drop)]
pub struct Former {
    object: Box<Object>,
}

impl Model for Former {
    ghost use Rattle.std.specs.Prelude.{box_value};
    ghost use Rattle.std.specs.Coded.{codes};
    ghost use Rattle.graph_record.specs.declared.object.Object.{Object as AnyObject};
    ghost use Rattle.graph_value.specs.contracts.value.Value as property_value;

    ghost Value = { AnyObject };

    ghost coded = { Prim.hlevel (codes, property_value.the_row.coded) };

    ghost view = { λ f. box_value f.object };
}

impl Former {
    /// Room for an object that is going to be deleted: a dead one, until [`Former::swap`] puts that there.
    pub fn room(alloc: Global) -> Result<Former, NoMemory>
        ensures { IfOk result (λ f. f ≡ Dead) }
    {
        let object = Box::new(alloc, Object::Dead)?;
        Ok(Former { object })
    }

    /// Puts each in the place of the other. It takes no memory.
    pub fn swap(&mut self, object: &mut Object)
        ensures former { self.new ≡ object.old }
        ensures object { object.new ≡ self.old }
    {
        mem::swap(&mut *self.object, object);
    }

    /// Takes the object, and leaves a dead one. Without memory nothing changes.
    pub fn take(alloc: Global, object: &mut Object) -> Result<Former, NoMemory>
        ensures ok { OnOk result (object.new ≡ Dead) }
        ensures former { IfOk result (λ f. f ≡ object.old) }
        ensures err { OnErr result (object.new ≡ object.old) }
    {
        let mut former = Former::room(alloc)?;
        former.swap(object);
        Ok(former)
    }

    pub fn as_object(&self) -> &Object
        ensures { result.now ≡ self.now }
    {
        &self.object
    }

    /// The same object, which shares what it holds.
    pub fn copy(&self, alloc: Global) -> Result<Former, NoMemory>
        ensures { IfOk result (λ f. f ≡ self.now) }
    {
        let object = Box::new(alloc, self.object.copy()?)?;
        Ok(Former { object })
    }
}
