use crate::{
    EdgeId, Name, NoMemory, Oid, Text, Tri, Value, VertexId, depth, equals, less, order,
    order_is_total, order_tells_apart, storable, weight,
};
use sqlite_items::Items;
use std::alloc::Global;
use std::cmp::Ordering;
use std::collections::HashMap;
use std::test::Fail;

type Made = Result<Value, NoMemory>;

fn null() -> Made {
    Ok(Value::Null)
}

fn truth(b: bool) -> Made {
    Ok(Value::Bool(b))
}

fn int(n: i64) -> Made {
    Ok(Value::Int(n))
}

fn vertex(id: u64) -> Made {
    Ok(Value::Vertex(VertexId(id)))
}

fn edge(id: u64) -> Made {
    Ok(Value::Edge(EdgeId(id)))
}

fn text(alloc: Global, text: &str) -> Made {
    Ok(Value::Text(Text::from_str(alloc, text)?))
}

/// A list of one.
fn single(alloc: Global, item: Made) -> Made {
    let mut items = Items::new(alloc);
    items.push(item?)?;
    Ok(Value::List(items))
}

/// A list of two.
fn pair(alloc: Global, first: Made, second: Made) -> Made {
    let (first, second) = (first?, second?);
    let mut items = Items::new(alloc);
    items.push(first)?;
    items.push(second)?;
    Ok(Value::List(items))
}

fn equal_is(a: Made, b: Made, wanted: Tri) -> Result<bool, NoMemory> {
    Ok(equals(&a?, &b?) == wanted)
}

fn less_is(a: Made, b: Made, wanted: Tri) -> Result<bool, NoMemory> {
    Ok(less(&a?, &b?) == wanted)
}

/// Whether the first comes before the second in the order, and is another value.
fn comes_before(a: Made, b: Made) -> Result<bool, NoMemory> {
    let (a, b) = (a?, b?);
    let both_ways = order(&a, &b) == Ordering::Less && order(&b, &a) == Ordering::Greater;
    Ok(both_ways && !a.same(&b))
}

fn sizes_are(value: Made, heavy: u128, deep: u64, kept: bool) -> Result<bool, NoMemory> {
    let value = value?;
    Ok(weight(&value) == heavy && depth(&value) == deep && storable(&value) == kept)
}

#[test]
fn equality_of_single_values(rt: HostRuntime) -> Result<(), Fail> {
    assert!(rt; equal_is(int(1), null(), Tri::Unknown)?);
    assert!(rt; equal_is(null(), null(), Tri::Unknown)?);
    assert!(rt; equal_is(int(1), int(1), Tri::True)?);
    assert!(rt; equal_is(int(1), truth(true), Tri::False)?);
    assert!(rt; equal_is(vertex(1), vertex(1), Tri::True)?);
    assert!(rt; equal_is(vertex(1), edge(1), Tri::False)?);
    Ok(())
}

#[test]
fn equality_of_lists(rt: HostRuntime) -> Result<(), Fail> {
    let alloc = rt.alloc();
    let one_null = pair(alloc, int(1), null());
    assert!(rt; equal_is(one_null, pair(alloc, int(2), null()), Tri::False)?);
    let one_null = pair(alloc, int(1), null());
    assert!(rt; equal_is(one_null, pair(alloc, int(1), null()), Tri::Unknown)?);
    let null_one = pair(alloc, null(), int(1));
    assert!(rt; equal_is(null_one, pair(alloc, null(), int(2)), Tri::False)?);
    let one = single(alloc, int(1));
    assert!(rt; equal_is(one, pair(alloc, int(1), int(2)), Tri::False)?);
    assert!(rt; equal_is(single(alloc, int(1)), single(alloc, int(1)), Tri::True)?);
    Ok(())
}

#[test]
fn less_of_two_values(rt: HostRuntime) -> Result<(), Fail> {
    let alloc = rt.alloc();
    assert!(rt; less_is(int(1), int(2), Tri::True)?);
    assert!(rt; less_is(int(2), int(2), Tri::False)?);
    assert!(rt; less_is(text(alloc, "a"), text(alloc, "aa"), Tri::True)?);
    assert!(rt; less_is(text(alloc, "a"), text(alloc, "B"), Tri::False)?);
    assert!(rt; less_is(truth(false), truth(true), Tri::True)?);
    assert!(rt; less_is(int(1), null(), Tri::Unknown)?);
    assert!(rt; less_is(int(1), truth(true), Tri::Unknown)?);
    assert!(rt; less_is(single(alloc, int(1)), single(alloc, int(2)), Tri::Unknown)?);
    Ok(())
}

#[test]
fn order_of_kinds(rt: HostRuntime) -> Result<(), Fail> {
    let alloc = rt.alloc();
    assert!(rt; comes_before(vertex(9), edge(3))?);
    assert!(rt; comes_before(edge(3), single(alloc, int(7)))?);
    assert!(rt; comes_before(single(alloc, int(7)), text(alloc, "b"))?);
    assert!(rt; comes_before(text(alloc, "b"), truth(true))?);
    assert!(rt; comes_before(truth(true), int(-5))?);
    assert!(rt; comes_before(int(-5), null())?);
    order_is_total();
    order_tells_apart();
    Ok(())
}

#[test]
fn order_within_a_kind(rt: HostRuntime) -> Result<(), Fail> {
    let alloc = rt.alloc();
    assert!(rt; comes_before(vertex(1), vertex(2))?);
    assert!(rt; comes_before(edge(1), edge(2))?);
    assert!(rt; comes_before(pair(alloc, int(1), int(9)), single(alloc, int(2)))?);
    assert!(rt; comes_before(single(alloc, int(1)), single(alloc, null()))?);
    assert!(rt; comes_before(text(alloc, "B"), text(alloc, "a"))?);
    assert!(rt; comes_before(truth(false), truth(true))?);
    assert!(rt; comes_before(int(-1), int(0))?);
    Ok(())
}

#[test]
fn sizes(rt: HostRuntime) -> Result<(), Fail> {
    let alloc = rt.alloc();
    assert!(rt; sizes_are(null(), 1, 0, false)?);
    assert!(rt; sizes_are(truth(true), 1, 0, true)?);
    assert!(rt; sizes_are(text(alloc, "abc"), 4, 0, true)?);
    assert!(rt; sizes_are(vertex(5), 1, 0, false)?);
    assert!(rt; sizes_are(pair(alloc, int(1), text(alloc, "ab")), 5, 1, true)?);
    assert!(rt; sizes_are(single(alloc, single(alloc, int(1))), 3, 2, false)?);
    assert!(rt; sizes_are(single(alloc, null()), 2, 1, false)?);
    Ok(())
}

#[test]
fn copies_as_keys(rt: HostRuntime) -> Result<(), Fail> {
    let alloc = rt.alloc();
    let key = pair(alloc, null(), text(alloc, "a"))?;
    let mut places = HashMap::new(alloc);
    places.insert(key.copy(alloc)?, 1)?;
    assert!(rt; places.get(&key).copied() == Some(1));
    Ok(())
}

#[test]
fn texts_and_names(rt: HostRuntime) -> Result<(), Fail> {
    let alloc = rt.alloc();
    let name = Name::from_str(alloc, "knows")?;
    assert!(rt; name.copy()? == name);
    assert!(rt; name.as_str() == "knows");
    assert!(rt; name < Name::from_str(alloc, "likes")?);
    let text = Text::from_string(String::from_str(alloc, "é")?);
    assert!(rt; Text::from_str(alloc, "z")? < text);
    assert!(rt; text.copy(alloc)?.as_str() == "é");
    Ok(())
}

#[test]
fn printed_ids(rt: HostRuntime) -> Result<(), Fail> {
    let alloc = rt.alloc();
    let vertex = format!(in alloc; "{}", Oid::Vertex(VertexId(0)))?;
    assert!(rt; vertex.as_str() == "v0");
    let edge = format!(in alloc; "{}", Oid::Edge(EdgeId(18446744073709551615)))?;
    assert!(rt; edge.as_str() == "e18446744073709551615");
    Ok(())
}

#[test]
fn known_and_unknown(rt: HostRuntime) {
    assert!(rt; Tri::known(true).and(Tri::Unknown) == Tri::Unknown);
    assert!(rt; Tri::Unknown.and(Tri::known(false)) == Tri::False);
}
