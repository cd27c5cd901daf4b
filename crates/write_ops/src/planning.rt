//! The plan of any clause that writes.
ghost use Rattle.expr_eval.specs.Outcome.{Evaluates};
ghost use Rattle.write_ops.specs.Planning.{created_ops, plan_of};

use crate::creating::{Created, create};
use crate::deleting::delete;
use crate::planned::Plan;
use crate::setting::{remove, set};
use cypher_syntax::{Pattern, Update};
use expr_eval::{EvalRefused, Row};
use graph_reader::GraphRead;
use std::alloc::Global;

fn create_ops<G: GraphRead>(
    alloc: Global,
    patterns: &[Pattern],
    table: &[Row],
    graph: &mut G,
) -> Result<Plan, EvalRefused>
    ensures { Evaluates G.stands G.follows
        (λ g. created_ops g patterns.now table.now) graph.old graph.new result }
{
    let Created { ops, .. } = create(alloc, patterns, table, graph)?;
    Ok(ops)
}

/// The operations of a clause that writes, for all rows of a table. Everything is found on the graph before the clause;
/// the reader only reads.
///
/// The answer is the first refusal, row by row and item by item: those of expressions; a type fault for a value that no
/// object keeps, and for a name of a wrong kind; gone for an entity that isn't alive, which DELETE leaves out instead. Of
/// DELETE all edges come first, and then the vertices, each once; with DETACH the edges of a vertex come before it.
/// [`create`] tells the names that CREATE gives as well.
pub fn plan<G: GraphRead>(
    alloc: Global,
    clause: &Update,
    table: &[Row],
    graph: &mut G,
) -> Result<Plan, EvalRefused>
    ensures { Evaluates G.stands G.follows (λ g. plan_of g clause.now table.now)
        graph.old graph.new result }
{
    match clause {
        Update::Create(patterns) => create_ops(alloc, patterns.as_slice(), table, graph),
        Update::Set(items) => set(alloc, items.as_slice(), table, graph),
        Update::Remove(items) => remove(alloc, items.as_slice(), table, graph),
        Update::Delete { detach, names } => {
            delete(alloc, *detach, names.as_slice(), table, graph)
        }
    }
}
