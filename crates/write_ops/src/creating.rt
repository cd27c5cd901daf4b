//! CREATE.
ghost use Rattle.std.specs.Prelude.{◌≡◌, IfOk};
ghost use Rattle.expr_eval.specs.Outcome.{Answers, Evaluates};
ghost use Rattle.write_ops.specs.Creating as spec;
ghost use Rattle.write_ops.specs.Over.{over};

use crate::entries::with_map;
use crate::placing::{Place, behind, one_more, place_of, with_names, with_vertex_name};
use crate::planned::{Entity, Names, Pick, Plan, PlannedOp};
use crate::writing::with_label_ops;
use cypher_syntax::{Arrow, EdgePattern, NodePattern, Pattern};
use expr_eval::{EvalRefused, Row};
use graph_reader::GraphRead;
use graph_value::{Name, NoMemory};
use sqlite_items::Items;
use std::alloc::Global;

/// How far a row is planned.
#[derive(Drop)]
pub(crate) struct Walk {
    pub(crate) ops: Plan,
    pub(crate) made: u64,
    /// The names that the clause gave in this row.
    pub(crate) names: Names,
    /// The vertex at which the pattern stands; between two patterns it has no meaning.
    pub(crate) here: Pick,
}

/// What CREATE plans.
#[derive(Drop)]
pub struct Created {
    pub ops: Plan,
    /// How many objects it makes.
    pub made: u64,
    /// The new names, row by row.
    pub names: Items<Names>,
}

fn with_create(at: Pick, labels: &[Name], ops: Plan) -> Result<Plan, NoMemory>
    ensures { IfOk result (λ o. o ≡ spec.created_vertex at labels.now ops) }
{
    let mut ops = ops;
    ops.push(PlannedOp::CreateVertex)?;
    with_label_ops(true, at, labels, ops)
}

/// A vertex, its labels and its properties.
fn new_vertex<G: GraphRead>(
    alloc: Global,
    at: Pick,
    node: &NodePattern,
    row: &Row,
    ops: Plan,
    graph: &mut G,
) -> Result<Plan, EvalRefused>
    ensures { Evaluates G.stands G.follows (λ g. spec.new_vertex g row.now ops at node.now)
        graph.old graph.new result }
{
    let ops = with_create(at, node.labels.as_slice(), ops)?;
    with_map(alloc, Entity::Vertex(at), &node.map, row, ops, graph)
}

fn node_ops<G: GraphRead>(
    alloc: Global,
    place: Place,
    node: &NodePattern,
    row: &Row,
    ops: Plan,
    graph: &mut G,
) -> Result<Plan, EvalRefused>
    ensures { Evaluates G.stands G.follows (λ g. spec.node_ops g row.now ops place node.now)
        graph.old graph.new result }
{
    if place.is_new {
        new_vertex(alloc, place.at, node, row, ops, graph)
    } else {
        Ok(ops)
    }
}

fn create_edge(arrow: Arrow, here: Pick, there: Pick, kind: Name) -> PlannedOp
    ensures { result ≡ spec.create_edge arrow here there kind }
{
    match arrow {
        Arrow::Left => PlannedOp::CreateEdge {
            from: there,
            kind,
            to: here,
        },
        _ => PlannedOp::CreateEdge {
            from: here,
            kind,
            to: there,
        },
    }
}

fn with_edge(arrow: Arrow, here: Pick, there: Pick, kind: Name, ops: Plan) -> Result<Plan, NoMemory>
    ensures { IfOk result (λ o. o ≡ spec.with_edge arrow here there kind ops) }
{
    let mut ops = ops;
    ops.push(create_edge(arrow, here, there, kind))?;
    Ok(ops)
}

fn kind_of(kinds: &[Name]) -> Result<Name, EvalRefused>
    ensures { Answers (spec.kind_of kinds.now) result }
{
    match kinds.first() {
        Some(kind) => Ok(kind.copy()?),
        None => Err(EvalRefused::TypeFault),
    }
}

/// An edge and its properties.
fn edge_ops<G: GraphRead>(
    alloc: Global,
    number: u64,
    here: Pick,
    there: Pick,
    edge: &EdgePattern,
    row: &Row,
    ops: Plan,
    graph: &mut G,
) -> Result<Plan, EvalRefused>
    ensures { Evaluates G.stands G.follows
        (λ g. spec.edge_ops g row.now ops (Pick.Made number) here there edge.now)
        graph.old graph.new result }
{
    let kind = kind_of(edge.kinds.as_slice())?;
    let ops = with_edge(edge.arrow, here, there, kind, ops)?;
    let x = Entity::Edge(Pick::Made(number));
    with_map(alloc, x, &edge.map, row, ops, graph)
}

/// The vertex, and then the edge that leads to it.
fn hop_ops<G: GraphRead>(
    alloc: Global,
    number: u64,
    here: Pick,
    place: Place,
    edge: &EdgePattern,
    node: &NodePattern,
    row: &Row,
    ops: Plan,
    graph: &mut G,
) -> Result<Plan, EvalRefused>
    ensures { Evaluates G.stands G.follows
        (λ g. spec.hop_ops g row.now ops number here place edge.now node.now)
        graph.old graph.new result }
{
    let ops = node_ops(alloc, place, node, row, ops, graph)?;
    edge_ops(alloc, number, here, place.at, edge, row, ops, graph)
}

/// Where a pattern stands behind its first vertex.
fn started(
    place: Place,
    node: &NodePattern,
    made: u64,
    names: Names,
    ops: Plan,
) -> Result<Walk, NoMemory>
    ensures { IfOk result (λ w. w ≡ spec.started made names place node.now ops) }
{
    let names = with_vertex_name(place, &node.name, names)?;
    Ok(Walk {
        ops,
        made: behind(place, made)?,
        names,
        here: place.at,
    })
}

fn start<G: GraphRead>(
    alloc: Global,
    node: &NodePattern,
    walk: Walk,
    row: &Row,
    graph: &mut G,
) -> Result<Walk, EvalRefused>
    ensures { Evaluates G.stands G.follows (λ g. spec.start g row.now walk node.now)
        graph.old graph.new result }
{
    let Walk {
        ops,
        made,
        names,
        ..
    } = walk;
    let place = place_of(row, names.as_slice(), made, &node.name, graph)?;
    let ops = node_ops(alloc, place, node, row, ops, graph)?;
    Ok(started(place, node, made, names, ops)?)
}

/// Where it stands behind an edge, whose number is given, and the vertex behind that.
fn went(
    place: Place,
    number: u64,
    edge: &EdgePattern,
    node: &NodePattern,
    names: Names,
    ops: Plan,
) -> Result<Walk, NoMemory>
    ensures { IfOk result (λ w. w ≡ spec.went number names place edge.now node.now ops) }
{
    let names = with_names(place, number, &edge.name, &node.name, names)?;
    Ok(Walk {
        ops,
        made: one_more(number)?,
        names,
        here: place.at,
    })
}

fn hop<G: GraphRead>(
    alloc: Global,
    edge: &EdgePattern,
    node: &NodePattern,
    walk: Walk,
    row: &Row,
    graph: &mut G,
) -> Result<Walk, EvalRefused>
    ensures { Evaluates G.stands G.follows (λ g. spec.hop g row.now walk (edge.now, node.now))
        graph.old graph.new result }
{
    let Walk {
        ops,
        made,
        names,
        here,
    } = walk;
    let place = place_of(row, names.as_slice(), made, &node.name, graph)?;
    let number = behind(place, made)?;
    let ops = hop_ops(alloc, number, here, place, edge, node, row, ops, graph)?;
    Ok(went(place, number, edge, node, names, ops)?)
}

fn hops<G: GraphRead>(
    alloc: Global,
    steps: &[(EdgePattern, NodePattern)],
    walk: Walk,
    row: &Row,
    graph: &mut G,
) -> Result<Walk, EvalRefused>
    ensures { Evaluates G.stands G.follows (λ g. over (spec.hop g row.now) walk steps.now)
        graph.old graph.new result }
{
    let mut walk = walk;
    for (edge, node) in steps {
        walk = hop(alloc, edge, node, walk, row, graph)?;
    }
    Ok(walk)
}

fn pattern<G: GraphRead>(
    alloc: Global,
    pattern: &Pattern,
    walk: Walk,
    row: &Row,
    graph: &mut G,
) -> Result<Walk, EvalRefused>
    ensures { Evaluates G.stands G.follows (λ g. spec.pattern g row.now walk pattern.now)
        graph.old graph.new result }
{
    let walk = start(alloc, &pattern.first, walk, row, graph)?;
    hops(alloc, pattern.steps.as_slice(), walk, row, graph)
}

fn patterns<G: GraphRead>(
    alloc: Global,
    patterns: &[Pattern],
    walk: Walk,
    row: &Row,
    graph: &mut G,
) -> Result<Walk, EvalRefused>
    ensures { Evaluates G.stands G.follows
        (λ g. over (spec.pattern g row.now) walk patterns.now) graph.old graph.new result }
{
    let mut walk = walk;
    for p in patterns {
        walk = pattern(alloc, p, walk, row, graph)?;
    }
    Ok(walk)
}

fn row_start(alloc: Global, made: u64, ops: Plan) -> Walk
    ensures { result ≡ spec.row_start made ops }
{
    Walk {
        ops,
        made,
        names: Items::new(alloc),
        here: Pick::Made(made),
    }
}

fn row_end(rows: Items<Names>, walk: Walk) -> Result<Created, NoMemory>
    ensures { IfOk result (λ c. c ≡ spec.row_end rows walk) }
{
    let mut rows = rows;
    let Walk {
        ops,
        made,
        names,
        ..
    } = walk;
    rows.push(names)?;
    Ok(Created {
        ops,
        made,
        names: rows,
    })
}

fn create_row<G: GraphRead>(
    alloc: Global,
    all: &[Pattern],
    row: &Row,
    created: Created,
    graph: &mut G,
) -> Result<Created, EvalRefused>
    ensures { Evaluates G.stands G.follows (λ g. spec.create_row g all.now created row.now)
        graph.old graph.new result }
{
    let Created { ops, made, names } = created;
    let walk = patterns(alloc, all, row_start(alloc, made, ops), row, graph)?;
    Ok(row_end(names, walk)?)
}

fn nothing_created(alloc: Global) -> Created
    ensures { result ≡ spec.nothing_created }
{
    Created {
        ops: Items::new(alloc),
        made: 0,
        names: Items::new(alloc),
    }
}

/// What CREATE plans for the rows of a table, with the names that each row gets. The reader only reads.
///
/// A vertex of a pattern is new where its name is neither in the row nor given earlier in the same clause and row. Per
/// pattern comes the first vertex, and then for each edge the next vertex and then the edge; behind the create of a vertex
/// come its labels, and behind any create the properties that aren't null.
///
/// The first refusal in this order is the answer: those of the expressions of maps; a type fault for a value that no object
/// keeps, and for a name that is no vertex; gone for one that isn't alive.
pub fn create<G: GraphRead>(
    alloc: Global,
    patterns: &[Pattern],
    table: &[Row],
    graph: &mut G,
) -> Result<Created, EvalRefused>
    ensures { Evaluates G.stands G.follows (λ g. spec.create_of g patterns.now table.now)
        graph.old graph.new result }
{
    let mut created = nothing_created(alloc);
    for row in table {
        created = create_row(alloc, patterns, row, created, graph)?;
    }
    Ok(created)
}
