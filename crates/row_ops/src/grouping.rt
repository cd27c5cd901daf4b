//! Groups of rows.
ghost use Rattle.std.specs.Prelude.{◌≡◌, ◌++◌, ◌∷◌, [], map, length, ◌<◌, slice_set, slice_index_or, IfOk, OnOk};
ghost use Rattle.std.specs.Option.{option_copied};
ghost use Rattle.indexmap.specs.IndexSet.{insert_key};
ghost use Rattle.graph_value.specs.Value.{same_value};
ghost use Rattle.expr_eval.specs.Eval.{values_of};
ghost use Rattle.expr_eval.specs.Outcome.{Answers, Evaluates};
ghost use Rattle.graph_value.specs.declared.value.Value.TheVariants as value;
ghost use Rattle.row_ops.specs.Grouping as spec;

use crate::aggregates::aggregated;
use crate::columns::place_name;
use crate::compiling::{Aggregate, filled};
use crate::made::Made;
use crate::queues::queue;
use crate::rows::with_values;
use cypher_check::has_aggregate;
use cypher_syntax::{Expr, Item};
use expr_eval::{EvalRefused, Row, Table, eval};
use graph_reader::GraphRead;
use graph_value::{List, NoMemory, Value};
use indexmap::IndexSet;
use sqlite_items::Items;
use std::alloc::Global;

/// What is evaluated of each item in a row: the values of its aggregates' arguments, or its own where it is a key.
type Cells = Items<List>;

/// The rows of a group.
type Group = Items<Cells>;

/// An item made ready.
#[derive(Drop)]
pub struct Plan {
    pub is_key: bool,
    pub filled: Expr,
    pub aggregates: Items<Aggregate>,
}

fn make_plan(alloc: Global, item: &Item) -> Result<Plan, NoMemory>
    ensures { IfOk result (λ p. p ≡ spec.plan_of item.now) }
{
    let mut aggregates = Items::new(alloc);
    let filled = filled(alloc, &item.expr, &mut aggregates)?;
    Ok(Plan {
        is_key: !has_aggregate(&item.expr),
        filled,
        aggregates,
    })
}

fn plans(alloc: Global, items: &[Item]) -> Result<Items<Plan>, NoMemory>
    ensures { IfOk result (λ plans. plans ≡ map spec.plan_of items.now) }
{
    let mut plans = Items::new(alloc);
    for item in items {
        plans.push(make_plan(alloc, item)?)?;
    }
    Ok(plans)
}

/// The arguments of aggregates in a row.
fn arguments<G: GraphRead>(
    alloc: Global,
    aggregates: &[Aggregate],
    row: &Row,
    graph: &mut G,
) -> Result<List, EvalRefused>
    ensures { Evaluates G.stands G.follows
        (λ g. values_of g row.now (map (λ a. a.of) aggregates.now))
        graph.old graph.new result }
{
    let mut values = Items::new(alloc);
    for aggregate in aggregates {
        values.push(eval(alloc, &aggregate.of, row, graph)?)?;
    }
    Ok(values)
}

fn key_alone<G: GraphRead>(
    alloc: Global,
    expr: &Expr,
    row: &Row,
    graph: &mut G,
) -> Result<List, EvalRefused>
    ensures { Evaluates G.stands G.follows (λ g. values_of g row.now (expr.now ∷ []))
        graph.old graph.new result }
{
    let mut values = Items::new(alloc);
    values.push(eval(alloc, expr, row, graph)?)?;
    Ok(values)
}

fn cell<G: GraphRead>(
    alloc: Global,
    item: &Item,
    plan: &Plan,
    row: &Row,
    graph: &mut G,
) -> Result<List, EvalRefused>
    requires { plan.now ≡ spec.plan_of item.now }
    ensures { Evaluates G.stands G.follows (λ g. spec.cell_of g row.now item.now)
        graph.old graph.new result }
{
    if plan.is_key {
        key_alone(alloc, &item.expr, row, graph)
    } else {
        arguments(alloc, plan.aggregates.as_slice(), row, graph)
    }
}

/// The cells of a row.
fn cells<G: GraphRead>(
    alloc: Global,
    items: &[Item],
    plans: &[Plan],
    row: &Row,
    graph: &mut G,
) -> Result<Cells, EvalRefused>
    requires { plans.now ≡ map spec.plan_of items.now }
    ensures { Evaluates G.stands G.follows (λ g. spec.cells_on g row.now [] items.now)
        graph.old graph.new result }
{
    let mut cells = Items::new(alloc);
    for (place, item) in items.iter().enumerate() {
        cells.push(cell(alloc, item, &plans[place], row, graph)?)?;
    }
    Ok(cells)
}

/// The cells of all rows.
fn all_cells<G: GraphRead>(
    alloc: Global,
    items: &[Item],
    plans: &[Plan],
    table: &[Row],
    graph: &mut G,
) -> Result<Group, EvalRefused>
    requires { plans.now ≡ map spec.plan_of items.now }
    ensures { Evaluates G.stands G.follows (λ g. spec.rows_on g items.now [] table.now)
        graph.old graph.new result }
{
    let mut rows = Items::new(alloc);
    for row in table {
        rows.push(cells(alloc, items, plans, row, graph)?)?;
    }
    Ok(rows)
}

fn with_key_cell(alloc: Global, values: List, item: &Item, cell: &List) -> Result<List, NoMemory>
    ensures { IfOk result (λ r. r ≡ values ++ spec.key_cell item.now cell.now) }
{
    if has_aggregate(&item.expr) {
        return Ok(values);
    }
    with_values(alloc, values, cell.as_slice())
}

/// The same, if there is a cell.
fn with_cell(
    alloc: Global,
    values: List,
    item: &Item,
    cell: Option<&List>,
) -> Result<List, NoMemory>
    ensures { IfOk result (λ r. r
        ≡ values ++ spec.key_cell_at item.now (option_copied cell.entry)) }
{
    match cell {
        Some(cell) => with_key_cell(alloc, values, item, cell),
        None => Ok(values),
    }
}

/// The values of a key.
fn key_values(alloc: Global, items: &[Item], cells: &Cells) -> Result<List, NoMemory>
    ensures { IfOk result (λ values. values ≡ spec.key_values items.now cells.now) }
{
    let mut values = Items::new(alloc);
    for (place, item) in items.iter().enumerate() {
        values = with_cell(alloc, values, item, cells.get(place))?;
    }
    Ok(values)
}

/// The key of a row.
fn key(alloc: Global, items: &[Item], cells: &Cells) -> Result<Value, NoMemory>
    ensures { IfOk result (λ v. v ≡ spec.key_of items.now cells.now) }
{
    Ok(Value::List(key_values(alloc, items, cells)?))
}

fn has_keys(items: &[Item]) -> bool
    ensures { result ≡ spec.has_keys items.now }
{
    items.iter().any(|item| !has_aggregate(&item.expr))
}

fn alone(alloc: Global, cells: Cells) -> Result<Group, NoMemory>
    ensures { IfOk result (λ group. group ≡ cells ∷ []) }
{
    let mut group = Items::new(alloc);
    group.push(cells)?;
    Ok(group)
}

/// Puts a row into a group.
fn put(groups: &mut Vec<Group>, place: usize, cells: Cells) -> Result<(), NoMemory>
    requires { place < length groups.old.items }
    ensures { OnOk result (groups.new.items ≡ slice_set groups.old.items place
        (slice_index_or groups.old.items place [] ++ cells ∷ [])) }
{
    groups[place].push(cells)
}

/// Puts a row into the group of its key, or into one of its own.
#[tactic(auto, using(crate::proofs::GroupLemmas::grown_apart, crate::proofs::GroupLemmas::grown_within))]
fn add(
    alloc: Global,
    keys: &mut IndexSet<Value>,
    groups: &mut Vec<Group>,
    key: Value,
    cells: Cells,
) -> Result<(), NoMemory>
    requires { length groups.old.items ≡ length keys.old.keys }
    ensures keys { OnOk result (keys.new.keys ≡ insert_key same_value keys.old.keys key) }
    ensures groups { OnOk result (groups.new.items
        ≡ spec.grown key cells keys.old.keys groups.old.items) }
    ensures alike { OnOk result (length groups.new.items ≡ length keys.new.keys) }
{
    let (place, is_new) = keys.insert_full(key)?;
    if is_new {
        groups.push(alone(alloc, cells)?)?;
        Ok(())
    } else {
        put(groups, place, cells)
    }
}

/// A group for each key.
#[tactic(auto, using(crate::proofs::GroupLemmas::gathered_all))]
fn by_key(alloc: Global, items: &[Item], rows: Group) -> Result<Items<Group>, NoMemory>
    ensures { IfOk result (λ groups. groups ≡ spec.by_key items.now rows) }
{
    let mut keys = IndexSet::new(alloc);
    let mut groups = Vec::new(alloc);
    let mut left = queue(alloc, rows)?;
    while let Some(cells) = left.pop_front() {
        let key = key(alloc, items, &cells)?;
        add(alloc, &mut keys, &mut groups, key, cells)?;
    }
    Ok(Items::from_vec(groups))
}

fn groups(alloc: Global, items: &[Item], rows: Group) -> Result<Items<Group>, NoMemory>
    ensures { IfOk result (λ groups. groups ≡ spec.groups_of items.now rows) }
{
    if has_keys(items) {
        return by_key(alloc, items, rows);
    }
    let mut groups = Items::new(alloc);
    groups.push(rows)?;
    Ok(groups)
}

/// The value at a place of a cell.
fn cell_value(alloc: Global, cell: &List, place: usize) -> Result<Value, NoMemory>
    ensures { IfOk result (λ v. v ≡ spec.at_or value.Null place cell.now) }
{
    match cell.get(place) {
        Some(value) => value.copy(alloc),
        None => Ok(Value::Null),
    }
}

/// The value at two places of a row.
fn value_at(alloc: Global, cells: &Cells, item: usize, place: usize) -> Result<Value, NoMemory>
    ensures { IfOk result (λ v. v
        ≡ spec.at_or value.Null place (spec.at_or [] item cells.now)) }
{
    match cells.get(item) {
        Some(cell) => cell_value(alloc, cell, place),
        None => Ok(Value::Null),
    }
}

/// The values at two places, through the rows of a group.
fn column(alloc: Global, group: &[Cells], item: usize, place: usize) -> Result<List, NoMemory>
    ensures { IfOk result (λ values. values
        ≡ spec.through value.Null place (spec.through [] item group.now)) }
{
    let mut values = Items::new(alloc);
    for cells in group {
        values.push(value_at(alloc, cells, item, place)?)?;
    }
    Ok(values)
}

/// The results of the aggregates of an item, each under its number.
fn results(
    alloc: Global,
    aggregates: &[Aggregate],
    group: &[Cells],
    item: usize,
) -> Result<Row, EvalRefused>
    ensures { Answers (spec.results_on (spec.through [] item group.now) 0 [] aggregates.now)
        result }
{
    let mut row = Items::new(alloc);
    for (place, aggregate) in aggregates.iter().enumerate() {
        let values = column(alloc, group, item, place)?;
        let value = aggregated(alloc, aggregate.fun, aggregate.distinct, values)?;
        row.push((place_name(alloc, place)?, value))?;
    }
    Ok(row)
}

/// The value of an item with aggregates in a group.
fn part_value<G: GraphRead>(
    alloc: Global,
    plan: &Plan,
    group: &[Cells],
    item: usize,
    graph: &mut G,
) -> Result<Value, EvalRefused>
    ensures { Evaluates G.stands G.follows (λ g. spec.plan_value g plan.now
        (spec.through [] item group.now)) graph.old graph.new result }
{
    let row = results(alloc, plan.aggregates.as_slice(), group, item)?;
    eval(alloc, &plan.filled, &row, graph)
}

/// The value of a key in a group.
fn key_value(alloc: Global, group: &[Cells], item: usize) -> Result<Value, NoMemory>
    ensures { IfOk result (λ v. v ≡ spec.key_value item group.now) }
{
    match group.get(0) {
        Some(cells) => value_at(alloc, cells, item, 0),
        None => Ok(Value::Null),
    }
}

fn item_value<G: GraphRead>(
    alloc: Global,
    plan: &Plan,
    group: &[Cells],
    item: usize,
    graph: &mut G,
) -> Result<Value, EvalRefused>
    ensures { Evaluates G.stands G.follows (λ g. spec.planned_value g plan.now item group.now)
        graph.old graph.new result }
{
    if plan.is_key {
        Ok(key_value(alloc, group, item)?)
    } else {
        part_value(alloc, plan, group, item, graph)
    }
}

/// The values of the items in a group.
fn values<G: GraphRead>(
    alloc: Global,
    plans: &[Plan],
    group: &[Cells],
    graph: &mut G,
) -> Result<List, EvalRefused>
    ensures { Evaluates G.stands G.follows (λ g. spec.planned_on g group.now 0 [] plans.now)
        graph.old graph.new result }
{
    let mut values = Items::new(alloc);
    for (place, plan) in plans.iter().enumerate() {
        values.push(item_value(alloc, plan, group, place, graph)?)?;
    }
    Ok(values)
}

/// The rows that the groups give.
fn finished<G: GraphRead>(
    alloc: Global,
    plans: &[Plan],
    groups: &[Group],
    graph: &mut G,
) -> Result<Items<Made>, EvalRefused>
    ensures { Evaluates G.stands G.follows (λ g. spec.groups_on g plans.now [] groups.now)
        graph.old graph.new result }
{
    let mut rows = Items::new(alloc);
    for group in groups {
        let values = values(alloc, plans, group.as_slice(), graph)?;
        rows.push(Made {
            before: Items::new(alloc),
            values,
        })?;
    }
    Ok(rows)
}

/// A row for each group.
pub(crate) fn grouped<G: GraphRead>(
    alloc: Global,
    items: &[Item],
    table: Table,
    graph: &mut G,
) -> Result<Items<Made>, EvalRefused>
    ensures { Evaluates G.stands G.follows (λ g. spec.grouped_of g items.now table)
        graph.old graph.new result }
{
    let plans = plans(alloc, items)?;
    let rows = all_cells(alloc, items, plans.as_slice(), table.as_slice(), graph)?;
    let groups = groups(alloc, items, rows)?;
    finished(alloc, plans.as_slice(), groups.as_slice(), graph)
}
