ghost use Rattle.std.specs.Prelude.{◌≡◌, ◌↔◌, IfOk, IsTrue};
ghost use Rattle.graph_value.specs.Value.{same_value};

use crate::sameness::same_values;
use crate::{EdgeId, NoMemory, Text, VertexId};
use sqlite_items::Items;
use std::alloc::Global;

/// The elements of a list value, in order.
pub type List = Items<Value>;

/// A value of a property or of an expression.
#[derive(Debug, Drop)]
pub enum Value {
    /// No value.
    Null,
    Bool(bool),
    Int(i64),
    Text(Text),
    List(List),
    Vertex(VertexId),
    Edge(EdgeId),
}

impl Value {
    /// The same value, in memory of its own.
    pub fn copy(&self, alloc: Global) -> Result<Value, NoMemory>
        ensures { IfOk result (λ v. v ≡ self.now) }
    {
        match self {
            Value::Null => Ok(Value::Null),
            Value::Bool(b) => Ok(Value::Bool(*b)),
            Value::Int(n) => Ok(Value::Int(*n)),
            Value::Text(text) => Ok(Value::Text(text.copy(alloc)?)),
            Value::List(items) => {
                let mut copies = Items::new(alloc);
                for item in items.as_slice() {
                    copies.push(item.copy(alloc)?)?;
                }
                Ok(Value::List(copies))
            }
            Value::Vertex(id) => Ok(Value::Vertex(*id)),
            Value::Edge(id) => Ok(Value::Edge(*id)),
        }
    }

    /// Whether the two are the same value, part by part. Null is the same as null.
    #[tactic(auto, using(crate::specs::SameLaws::same_value_Decides))]
    pub fn same(&self, other: &Value) -> bool
        ensures test { result ≡ same_value self.now other.now }
        ensures equal { IsTrue result ↔ (self.now ≡ other.now) }
    {
        same_values(self, other)
    }
}
