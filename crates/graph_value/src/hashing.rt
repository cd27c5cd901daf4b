ghost use Rattle.graph_value.specs.Hash.{hash_of};

use crate::Value;
use std::hash::{Hash, Hasher};

/// Values that are the same feed a hasher alike.
impl Hash for Value {
    ghost use Rattle.graph_value.specs.SameLaws.{same_value_hashes};

    ghost hash_input = { hash_of };

    ghost respects_eq = { same_value_hashes };

    fn hash<H: Hasher>(&self, state: &mut H) {
        match self {
            Value::Null => state.write_u8(0),
            Value::Bool(b) => {
                state.write_u8(1);
                b.hash(state);
            }
            Value::Int(n) => {
                state.write_u8(2);
                n.hash(state);
            }
            Value::Text(text) => {
                state.write_u8(3);
                text.hash(state);
            }
            Value::List(items) => {
                state.write_u8(4);
                state.write_usize(items.len());
                for item in items.as_slice() {
                    item.hash(state);
                }
            }
            Value::Vertex(id) => {
                state.write_u8(5);
                id.hash(state);
            }
            Value::Edge(id) => {
                state.write_u8(6);
                id.hash(state);
            }
        }
    }
}
