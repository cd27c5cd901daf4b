ghost use Rattle.std.specs.Prelude.{◌≡◌, IfOk};
ghost use Rattle.serde_json.specs.View.{view, items_view};
ghost use Rattle.event_lines.specs.Values.{begins_white, ends_white, is_white, json_value, list_from, simple_from, value_from};
ghost use Rattle.std.specs.Prelude.{option_map};

use crate::NoMemory;
use crate::request::integer::plain_integer;
use graph_value::{List, Text, Value};
use serde_json::Value as Json;
use std::alloc::{AllocError, Global};

/// The value that a JSON text is, or `None` where it is none that can be set: such a value is null, a truth value, an
/// integer of 64 bits, a string or a list of the last three. No white space stands before it or behind it.
///
/// The error says that memory was wanting.
#[tactic(auto, unfolding(crate::specs::Values::json_value))]
pub fn json_value(alloc: Global, text: &[u8]) -> Result<Option<Value>, NoMemory>
    ensures { IfOk result (λ v. v ≡ json_value text.now) }
{
    if let Some(n) = plain_integer(text) {
        return Ok(Some(Value::Int(n)));
    }
    if begins_white(text) || ends_white(text) {
        return Ok(None);
    }
    let Ok(text) = str::from_utf8(text) else {
        return Ok(None);
    };
    match Json::from_str(alloc, text) {
        Ok(json) => value_from(alloc, json),
        Err(error) if error.is_memory() => Err(AllocError),
        Err(_) => Ok(None),
    }
}

fn is_white(b: u8) -> bool
    ensures { result ≡ is_white b }
{
    matches!(b, b'\t' | b'\n' | b'\r' | b' ')
}

fn begins_white(text: &[u8]) -> bool
    ensures { result ≡ begins_white text.now }
{
    match text {
        [] => false,
        [first, ..] => is_white(*first),
    }
}

fn ends_white(text: &[u8]) -> bool
    ensures { result ≡ ends_white text.now }
{
    match text {
        [] => false,
        [.., last] => is_white(*last),
    }
}

/// The value that is set by what was read.
fn value_from(alloc: Global, json: Json) -> Result<Option<Value>, NoMemory>
    ensures { IfOk result (λ v. v ≡ value_from (view json)) }
{
    match json {
        Json::Null => Ok(Some(Value::Null)),
        Json::Array(items) => list_from(alloc, items),
        _ => Ok(simple_from(json)),
    }
}

/// A truth value, an integer of 64 bits or a string.
fn simple_from(json: Json) -> Option<Value>
    ensures { result ≡ simple_from (view json) }
{
    match json {
        Json::Bool(b) => Some(Value::Bool(b)),
        Json::Number(n) => Some(Value::Int(n.as_i64()?)),
        Json::String(text) => Some(Value::Text(Text::from_string(text))),
        Json::Null | Json::Array(_) | Json::Object(_) => None,
    }
}

/// A list of these.
fn list_from(alloc: Global, items: Vec<Json>) -> Result<Option<Value>, NoMemory>
    ensures { IfOk result (λ v. v ≡ option_map Value.List (list_from (items_view items.items))) }
{
    let mut values = List::new(alloc);
    for item in items {
        let Some(value) = simple_from(item) else {
            return Ok(None);
        };
        values.push(value)?;
    }
    Ok(Some(Value::List(values)))
}
