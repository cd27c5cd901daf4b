ghost use Rattle.std.specs.Prelude.{◌≡◌, IfOk, map};
ghost use Rattle.event_lines.specs.Request.{delete_event, edge_event, label_event, property_event, set_ask, set_event, unlabel_event};

use crate::NoMemory;
use crate::request::object::{name, oid, vertex};
use crate::request::values::json_value;
use crate::request::words::cut;
use graph_value::{Name, Oid, Value};
use std::alloc::Global;
use undo_delta::Ask;
use world_model::Event;

/// The deletion of an object: the words behind `delete`.
#[tactic(auto, unfolding(crate::specs::Request::delete_event))]
pub fn delete_event(words: &[&[u8]]) -> Option<Event>
    ensures { result ≡ delete_event (map (λ w. w.now) words.now) }
{
    let [object] = words else {
        return None;
    };
    match oid(object)? {
        Oid::Vertex(id) => Some(Event::Write(Ask::DeleteVertex(id))),
        Oid::Edge(id) => Some(Event::Write(Ask::DeleteEdge(id))),
    }
}

/// A label that a vertex gets: the words behind `label`.
#[tactic(auto, unfolding(crate::specs::Request::label_event))]
pub fn label_event(alloc: Global, words: &[&[u8]]) -> Result<Option<Event>, NoMemory>
    ensures { IfOk result (λ e. e ≡ label_event (map (λ w. w.now) words.now)) }
{
    let [object, label] = words else {
        return Ok(None);
    };
    let Some(id) = vertex(object) else {
        return Ok(None);
    };
    let Some(label) = name(alloc, label)? else {
        return Ok(None);
    };
    Ok(Some(Event::Write(Ask::AddLabel(id, label))))
}

/// A label that a vertex loses: the words behind `unlabel`.
#[tactic(auto, unfolding(crate::specs::Request::unlabel_event))]
pub fn unlabel_event(alloc: Global, words: &[&[u8]]) -> Result<Option<Event>, NoMemory>
    ensures { IfOk result (λ e. e ≡ unlabel_event (map (λ w. w.now) words.now)) }
{
    let [object, label] = words else {
        return Ok(None);
    };
    let Some(id) = vertex(object) else {
        return Ok(None);
    };
    let Some(label) = name(alloc, label)? else {
        return Ok(None);
    };
    Ok(Some(Event::Write(Ask::RemoveLabel(id, label))))
}

/// A new edge between two vertices: the words behind `edge`.
#[tactic(auto, unfolding(crate::specs::Request::edge_event))]
pub fn edge_event(alloc: Global, words: &[&[u8]]) -> Result<Option<Event>, NoMemory>
    ensures { IfOk result (λ e. e ≡ edge_event (map (λ w. w.now) words.now)) }
{
    let [source, kind, target] = words else {
        return Ok(None);
    };
    let Some(from) = vertex(source) else {
        return Ok(None);
    };
    let Some(to) = vertex(target) else {
        return Ok(None);
    };
    let Some(kind) = name(alloc, kind)? else {
        return Ok(None);
    };
    Ok(Some(Event::Write(Ask::CreateEdge { from, kind, to })))
}

/// A value under a name: the rest of the line behind `set`.
#[tactic(auto, unfolding(crate::specs::Request::set_event))]
pub fn set_event(alloc: Global, text: &[u8]) -> Result<Option<Event>, NoMemory>
    ensures { IfOk result (λ e. e ≡ set_event text.now) }
{
    let Some((object, text)) = cut(text) else {
        return Ok(None);
    };
    let Some(x) = oid(object) else {
        return Ok(None);
    };
    let Some((property, text)) = cut(text) else {
        return Ok(None);
    };
    property_event(alloc, x, property, text)
}

/// The name and the value of a property of an object.
#[tactic(auto, unfolding(crate::specs::Request::property_event))]
fn property_event(
    alloc: Global,
    x: Oid,
    property: &[u8],
    text: &[u8],
) -> Result<Option<Event>, NoMemory>
    ensures { IfOk result (λ e. e ≡ property_event x property.now text.now) }
{
    let Some(name) = name(alloc, property)? else {
        return Ok(None);
    };
    let Some(value) = json_value(alloc, text)? else {
        return Ok(None);
    };
    Ok(Some(Event::Write(set_ask(x, name, value))))
}

/// The write of a value under a name of an object.
fn set_ask(x: Oid, name: Name, value: Value) -> Ask
    ensures { result ≡ set_ask x name value }
{
    match x {
        Oid::Vertex(id) => Ask::SetVertexProp(id, name, value),
        Oid::Edge(id) => Ask::SetEdgeProp(id, name, value),
    }
}
