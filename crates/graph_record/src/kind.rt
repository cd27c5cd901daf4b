ghost use Rattle.std.specs.Prelude.{◌≡◌, ◌<◌, IfOk, length};

use crate::NoMemory;
use graph_value::Name;
use std::alloc::Global;
use std::marker::Model;
use std::sync::Arc;

/// The kind of an edge: a name that the copies of its record share. Contracts see the name.
#[derive(Debug, Drop)]
pub struct Kind {
    name: Arc<Name>,
}

impl Model for Kind {
    ghost use Rattle.std.specs.Prelude.{List, ℕ};
    ghost use Rattle.std.specs.Arc.{arc_value};

    ghost Value = { List ℕ };

    ghost view = { λ k. arc_value k.name };
}

impl Kind {
    pub fn new(alloc: Global, name: Name) -> Result<Kind, NoMemory>
        ensures { IfOk result (λ k. k ≡ name) }
    {
        let name = Arc::new(alloc, name)?;
        Ok(Kind { name })
    }

    pub fn as_str(&self) -> &str
        ensures text { result.now ≡ self.now }
        ensures named { 0 < length self.now }
    {
        self.name.as_str()
    }

    /// The same kind, shared. It allocates nothing: the error says that it has as many owners as can be counted.
    pub fn copy(&self) -> Result<Kind, NoMemory>
        ensures { IfOk result (λ k. k ≡ self.now) }
    {
        let name = Arc::try_clone(&self.name)?;
        Ok(Kind { name })
    }
}
