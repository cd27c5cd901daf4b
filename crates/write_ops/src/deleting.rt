//! DELETE.
ghost use Rattle.std.specs.Prelude.{◌≡◌, ◌∷◌, ◌++◌, [], filter, map, IfOk, Ok};
ghost use Rattle.graph_value.specs.declared.id.Oid.TheVariants as oid;
ghost use Rattle.expr_eval.specs.Outcome.{Evaluates};
ghost use Rattle.write_ops.specs.Deleting as spec;
ghost use Rattle.write_ops.specs.Over.{over};
ghost use Rattle.write_ops.specs.Writing as writing;

use crate::near::edges_at;
use crate::once::firsts;
use crate::planned::Plan;
use crate::target::{Target, is_alive, target_of};
use crate::writing::delete_op;
use expr_eval::{EvalRefused, Row};
use graph_reader::GraphRead;
use graph_value::{EdgeId, Name, NoMemory, Oid};
use sqlite_items::Items;
use std::alloc::Global;

fn with_if(alive: bool, x: Oid, found: Items<Oid>) -> Result<Items<Oid>, NoMemory>
    ensures { IfOk result (λ all. all ≡ spec.with_if alive x found) }
{
    let mut found = found;
    if alive {
        found.push(x)?;
    }
    Ok(found)
}

fn with_target<G: GraphRead>(
    target: Target,
    found: Items<Oid>,
    graph: &mut G,
) -> Result<Items<Oid>, EvalRefused>
    ensures { Evaluates G.stands G.follows (λ g. spec.with_target g found target)
        graph.old graph.new result }
{
    match target {
        Target::Nothing => Ok(found),
        Target::Entity(x) => {
            let alive = is_alive(x, graph)?;
            Ok(with_if(alive, x, found)?)
        }
        Target::Other => Err(EvalRefused::TypeFault),
    }
}

fn with_row<G: GraphRead>(
    names: &[Name],
    row: &Row,
    found: Items<Oid>,
    graph: &mut G,
) -> Result<Items<Oid>, EvalRefused>
    ensures { Evaluates G.stands G.follows (λ g. spec.with_row g names.now found row.now)
        graph.old graph.new result }
{
    let mut found = found;
    for name in names {
        found = with_target(target_of(row.as_slice(), name), found, graph)?;
    }
    Ok(found)
}

/// All that the names stand for in all rows.
fn found<G: GraphRead>(
    alloc: Global,
    names: &[Name],
    table: &[Row],
    graph: &mut G,
) -> Result<Items<Oid>, EvalRefused>
    ensures { Evaluates G.stands G.follows (λ g. spec.found_of g names.now table.now)
        graph.old graph.new result }
{
    let mut found = Items::new(alloc);
    for row in table {
        found = with_row(names, row, found, graph)?;
    }
    Ok(found)
}

fn is_edge(x: Oid) -> bool
    ensures { result ≡ spec.is_edge x }
{
    matches!(x, Oid::Edge(_))
}

fn is_vertex(x: Oid) -> bool
    ensures { result ≡ spec.is_vertex x }
{
    matches!(x, Oid::Vertex(_))
}

fn edges(alloc: Global, found: &[Oid]) -> Result<Items<Oid>, NoMemory>
    ensures { IfOk result (λ all. all ≡ filter spec.is_edge found.now) }
{
    let mut all = Items::new(alloc);
    for x in found {
        if is_edge(*x) {
            all.push(*x)?;
        }
    }
    Ok(all)
}

fn vertices(alloc: Global, found: &[Oid]) -> Result<Items<Oid>, NoMemory>
    ensures { IfOk result (λ all. all ≡ filter spec.is_vertex found.now) }
{
    let mut all = Items::new(alloc);
    for x in found {
        if is_vertex(*x) {
            all.push(*x)?;
        }
    }
    Ok(all)
}

fn with_edges(edges: &[EdgeId], all: Items<Oid>) -> Result<Items<Oid>, NoMemory>
    ensures { IfOk result (λ more. more ≡ all ++ map oid.Edge edges.now) }
{
    let mut all = all;
    for e in edges {
        all.push(Oid::Edge(*e))?;
    }
    Ok(all)
}

/// What goes before an object.
fn with_before<G: GraphRead>(
    alloc: Global,
    detach: bool,
    x: Oid,
    all: Items<Oid>,
    graph: &mut G,
) -> Result<Items<Oid>, EvalRefused>
    ensures { Evaluates G.stands G.follows (λ g. Ok (all ++ spec.before g detach x))
        graph.old graph.new result }
{
    match (detach, x) {
        (true, Oid::Vertex(v)) => {
            let edges = edges_at(alloc, v, graph)?;
            Ok(with_edges(edges.as_slice(), all)?)
        }
        _ => Ok(all),
    }
}

fn with_one(x: Oid, all: Items<Oid>) -> Result<Items<Oid>, NoMemory>
    ensures { IfOk result (λ more. more ≡ all ++ x ∷ []) }
{
    let mut all = all;
    all.push(x)?;
    Ok(all)
}

fn with_vertex<G: GraphRead>(
    alloc: Global,
    detach: bool,
    x: Oid,
    all: Items<Oid>,
    graph: &mut G,
) -> Result<Items<Oid>, EvalRefused>
    ensures { Evaluates G.stands G.follows (λ g. spec.with_vertex g detach all x)
        graph.old graph.new result }
{
    let all = with_before(alloc, detach, x, all, graph)?;
    Ok(with_one(x, all)?)
}

fn with_vertices<G: GraphRead>(
    alloc: Global,
    detach: bool,
    vertices: &[Oid],
    all: Items<Oid>,
    graph: &mut G,
) -> Result<Items<Oid>, EvalRefused>
    ensures { Evaluates G.stands G.follows
        (λ g. over (spec.with_vertex g detach) all vertices.now) graph.old graph.new result }
{
    let mut all = all;
    for x in vertices {
        all = with_vertex(alloc, detach, *x, all, graph)?;
    }
    Ok(all)
}

fn first_vertices(alloc: Global, found: &[Oid]) -> Result<Items<Oid>, NoMemory>
    ensures { IfOk result (λ all. all ≡ spec.firsts (filter spec.is_vertex found.now)) }
{
    let vertices = vertices(alloc, found)?;
    firsts(alloc, vertices.as_slice())
}

/// All that goes, in order.
fn doomed<G: GraphRead>(
    alloc: Global,
    detach: bool,
    found: &[Oid],
    graph: &mut G,
) -> Result<Items<Oid>, EvalRefused>
    ensures { Evaluates G.stands G.follows (λ g. spec.doomed g detach found.now)
        graph.old graph.new result }
{
    let vertices = first_vertices(alloc, found)?;
    let edges = edges(alloc, found)?;
    with_vertices(alloc, detach, vertices.as_slice(), edges, graph)
}

fn delete_ops(alloc: Global, all: &[Oid]) -> Result<Plan, NoMemory>
    ensures { IfOk result (λ ops. ops ≡ map writing.delete_op all.now) }
{
    let mut ops = Items::new(alloc);
    for x in all {
        ops.push(delete_op(*x))?;
    }
    Ok(ops)
}

fn deletes(alloc: Global, all: &[Oid]) -> Result<Plan, NoMemory>
    ensures { IfOk result (λ ops. ops ≡ spec.deletes all.now) }
{
    let once = firsts(alloc, all)?;
    delete_ops(alloc, once.as_slice())
}

/// The operations of DELETE.
pub(crate) fn delete<G: GraphRead>(
    alloc: Global,
    detach: bool,
    names: &[Name],
    table: &[Row],
    graph: &mut G,
) -> Result<Plan, EvalRefused>
    ensures { Evaluates G.stands G.follows (λ g. spec.delete_of g detach names.now table.now)
        graph.old graph.new result }
{
    let found = found(alloc, names, table, graph)?;
    let all = doomed(alloc, detach, found.as_slice(), graph)?;
    Ok(deletes(alloc, all.as_slice())?)
}
