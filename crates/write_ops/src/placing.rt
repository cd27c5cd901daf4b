//! CREATE: which vertices of its patterns are new, and the numbers and names of what is new.
ghost use Rattle.std.specs.Prelude.{◌≡◌, ◌+◌, ◌++◌, IfOk};
ghost use Rattle.expr_eval.specs.Outcome.{Evaluates};
ghost use Rattle.write_ops.specs.Placing as spec;

use crate::planned::{Entity, Names, Pick};
use crate::target::{Target, alive, bound};
use expr_eval::{EvalRefused, Row};
use graph_reader::GraphRead;
use graph_value::{Name, NoMemory, Oid};
use std::alloc::AllocError;

/// Where a vertex of a pattern is.
#[derive(Clone, Copy, PartialEq, Eq)]
pub(crate) struct Place {
    pub(crate) at: Pick,
    /// Whether the clause makes it here.
    pub(crate) is_new: bool,
}

fn new_place(made: u64) -> Place
    ensures { result ≡ spec.new_place made }
{
    Place {
        at: Pick::Made(made),
        is_new: true,
    }
}

fn old_place(at: Pick) -> Place
    ensures { result ≡ spec.old_place at }
{
    Place { at, is_new: false }
}

/// What a name stands for that the clause gave in this row.
fn given(names: &[(Name, Entity)], name: &Name) -> Option<Entity>
    ensures { result ≡ spec.given names.now name.now }
{
    for (known, x) in names {
        if known == name {
            return Some(*x);
        }
    }
    None
}

fn given_place(made: u64, x: Option<Entity>) -> Result<Place, EvalRefused>
    ensures { result ≡ spec.given_place made x }
{
    match x {
        None => Ok(new_place(made)),
        Some(Entity::Vertex(at)) => Ok(old_place(at)),
        Some(Entity::Edge(_)) => Err(EvalRefused::TypeFault),
    }
}

/// A vertex of the row, which has to be alive.
fn bound_place<G: GraphRead>(target: Target, graph: &mut G) -> Result<Place, EvalRefused>
    ensures { Evaluates G.stands G.follows (λ g. spec.bound_place g target)
        graph.old graph.new result }
{
    match target {
        Target::Entity(Oid::Vertex(v)) => {
            let _there = alive(Oid::Vertex(v), graph)?;
            Ok(old_place(Pick::Known(v.0)))
        }
        _ => Err(EvalRefused::TypeFault),
    }
}

fn named_place<G: GraphRead>(
    names: &[(Name, Entity)],
    made: u64,
    name: &Name,
    target: Option<Target>,
    graph: &mut G,
) -> Result<Place, EvalRefused>
    ensures { Evaluates G.stands G.follows
        (λ g. spec.named_place g names.now made name.now target) graph.old graph.new result }
{
    match target {
        Some(target) => bound_place(target, graph),
        None => given_place(made, given(names, name)),
    }
}

/// Where a vertex of a pattern is, behind so many creates.
pub(crate) fn place_of<G: GraphRead>(
    row: &Row,
    names: &[(Name, Entity)],
    made: u64,
    name: &Option<Name>,
    graph: &mut G,
) -> Result<Place, EvalRefused>
    ensures { Evaluates G.stands G.follows
        (λ g. spec.place_of g row.now names.now made name.now) graph.old graph.new result }
{
    match name {
        None => Ok(new_place(made)),
        Some(name) => named_place(names, made, name, bound(row.as_slice(), name), graph),
    }
}

/// The number behind. No list of operations is as long as 64 bits count, so past them memory is wanting.
pub(crate) fn one_more(made: u64) -> Result<u64, NoMemory>
    ensures { IfOk result (λ n. n ≡ made + 1) }
{
    match made.checked_add(1) {
        Some(n) => Ok(n),
        None => Err(AllocError),
    }
}

/// How many creates there are behind the vertex.
pub(crate) fn behind(place: Place, made: u64) -> Result<u64, NoMemory>
    ensures { IfOk result (λ n. n ≡ spec.behind place made) }
{
    if place.is_new {
        one_more(made)
    } else {
        Ok(made)
    }
}

fn named(names: Names, name: &Option<Name>, x: Entity) -> Result<Names, NoMemory>
    ensures { IfOk result (λ all. all ≡ names ++ spec.naming name.now x) }
{
    let mut names = names;
    if let Some(name) = name {
        names.push((name.copy()?, x))?;
    }
    Ok(names)
}

/// The names with that of a vertex, where it is new.
pub(crate) fn with_vertex_name(
    place: Place,
    name: &Option<Name>,
    names: Names,
) -> Result<Names, NoMemory>
    ensures { IfOk result (λ all. all ≡ names ++ spec.vertex_name place name.now) }
{
    if place.is_new {
        named(names, name, Entity::Vertex(place.at))
    } else {
        Ok(names)
    }
}

/// The names with that of an edge, whose number is given, and that of the vertex behind it.
pub(crate) fn with_names(
    place: Place,
    number: u64,
    edge: &Option<Name>,
    node: &Option<Name>,
    names: Names,
) -> Result<Names, NoMemory>
    ensures { IfOk result (λ all. all ≡ spec.with_names place number edge.now node.now names) }
{
    let names = named(names, edge, Entity::Edge(Pick::Made(number)))?;
    with_vertex_name(place, node, names)
}
