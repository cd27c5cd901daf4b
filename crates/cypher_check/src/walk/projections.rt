ghost use Rattle.std.specs.Prelude.{◌≡◌, ◌∷◌, ◌++◌, [], not, ◌&&◌, ◌||◌, OnOk};
ghost use Rattle.std.specs.List.{flat_map, list_any};
ghost use Rattle.std.specs.Option.{option_copied};
ghost use Rattle.cypher_check.specs.Marks.{expr_marks};
ghost use Rattle.cypher_check.specs.Same.{same_expr};
ghost use Rattle.cypher_check.specs.Asks.{Reads, Star, Gives, Widens, Narrows, step, after};
ghost use Rattle.cypher_check.specs.Clauses.{has_aggregate, item_place, given_name, name_asks, item_asks, is_closed, sort_asks, star_asks, tail_asks, filter_asks, projection_asks, clause_asks, stage_asks, returns_asks, query_asks};

use crate::names::place::Place;
use crate::same::same_exprs;
use crate::scope::Scope;
use crate::walk::clauses::clauses;
use crate::walk::reads::{filter, has_aggregate, plain, read};
use cypher_syntax::{Expr, Item, Projection, Query, Sort, Stage};
use graph_value::{Name, NoMemory};
use std::alloc::Global;

/// The place of an item: whether names may stand beside aggregates.
fn item_place(e: &Expr) -> Place
    ensures { result ≡ item_place e.now }
{
    if has_aggregate(e) {
        Place::Grouped
    } else {
        Place::Plain
    }
}

/// The name that an item gives.
pub fn given_name(i: &Item) -> Option<&Name>
    ensures { option_copied result ≡ given_name i.now.name i.now.expr }
{
    match (&i.name, &i.expr) {
        (Some(name), _) | (None, Expr::Var(name)) => Some(name),
        _ => None,
    }
}

/// An item of WITH or RETURN.
pub(crate) fn item(scope: &mut Scope, i: &Item) -> Result<(), NoMemory>
    ensures { OnOk result (scope.new ≡ after scope.old (item_asks i.now)) }
{
    read(scope, &i.expr, item_place(&i.expr))?;
    match given_name(i) {
        Some(name) => scope.give(name),
        None => Ok(()),
    }
}

pub(crate) fn items(scope: &mut Scope, is: &[Item]) -> Result<(), NoMemory>
    ensures { OnOk result (scope.new ≡ after scope.old (flat_map item_asks is.now)) }
{
    for i in is {
        item(scope, i)?;
    }
    Ok(())
}

fn any_aggregate(is: &[Item]) -> bool
    ensures { result ≡ list_any (λ i. has_aggregate i.expr) is.now }
{
    is.iter().any(|i| has_aggregate(&i.expr))
}

/// Whether rows are grouped or made distinct.
pub fn is_closed(p: &Projection) -> bool
    ensures { result ≡ is_closed p.now }
{
    p.distinct || any_aggregate(p.items.as_slice())
}

fn is_item(is: &[Item], e: &Expr) -> bool
    ensures { result ≡ list_any (λ i. same_expr i.expr e.now) is.now }
{
    is.iter().any(|i| same_exprs(&i.expr, e))
}

/// A key of ORDER BY.
pub(crate) fn sort(scope: &mut Scope, is: &[Item], key: &Sort) -> Result<(), NoMemory>
    ensures { OnOk result (scope.new ≡ after scope.old (sort_asks is.now key.now)) }
{
    if is_item(is, &key.expr) {
        return Ok(());
    }
    plain(scope, &key.expr)
}

pub(crate) fn sorts(scope: &mut Scope, is: &[Item], keys: &[Sort]) -> Result<(), NoMemory>
    ensures { OnOk result (scope.new ≡ after scope.old (flat_map (sort_asks is.now) keys.now)) }
{
    for key in keys {
        sort(scope, is, key)?;
    }
    Ok(())
}

pub(crate) fn star(alloc: Global, scope: &mut Scope, star: bool) -> Result<(), NoMemory>
    ensures { OnOk result (scope.new ≡ after scope.old (star_asks star)) }
{
    if star {
        scope.star(alloc)?;
    }
    Ok(())
}

/// What stands behind the items.
pub(crate) fn tail(
    alloc: Global,
    scope: &mut Scope,
    closed: bool,
    p: &Projection,
) -> Result<(), NoMemory>
    ensures { OnOk result (scope.new ≡ after scope.old (tail_asks closed (flat_map (sort_asks p.now.items) p.now.sort) (filter_asks p.now.filter))) }
{
    let is = p.items.as_slice();
    if closed {
        scope.narrow(alloc)?;
        sorts(scope, is, p.sort.as_slice())?;
        return filter(scope, &p.filter);
    }
    scope.widen()?;
    sorts(scope, is, p.sort.as_slice())?;
    scope.narrow(alloc)?;
    filter(scope, &p.filter)
}

/// WITH or RETURN.
pub(crate) fn projection(alloc: Global, scope: &mut Scope, p: &Projection) -> Result<(), NoMemory>
    ensures { OnOk result (scope.new ≡ after scope.old (projection_asks p.now)) }
{
    star(alloc, scope, p.star)?;
    items(scope, p.items.as_slice())?;
    tail(alloc, scope, is_closed(p), p)
}

pub(crate) fn stage(alloc: Global, scope: &mut Scope, s: &Stage) -> Result<(), NoMemory>
    ensures { OnOk result (scope.new ≡ after scope.old (stage_asks s.now)) }
{
    clauses(alloc, scope, s.clauses.as_slice())?;
    projection(alloc, scope, &s.next)
}

pub(crate) fn stages(alloc: Global, scope: &mut Scope, ss: &[Stage]) -> Result<(), NoMemory>
    ensures { OnOk result (scope.new ≡ after scope.old (flat_map stage_asks ss.now)) }
{
    for s in ss {
        stage(alloc, scope, s)?;
    }
    Ok(())
}

pub(crate) fn returns(
    alloc: Global,
    scope: &mut Scope,
    p: &Option<Projection>,
) -> Result<(), NoMemory>
    ensures { OnOk result (scope.new ≡ after scope.old (returns_asks p.now)) }
{
    match p {
        Some(p) => projection(alloc, scope, p),
        None => Ok(()),
    }
}

/// A whole query.
pub(crate) fn query(alloc: Global, scope: &mut Scope, q: &Query) -> Result<(), NoMemory>
    ensures { OnOk result (scope.new ≡ after scope.old (query_asks q.now)) }
{
    stages(alloc, scope, q.stages.as_slice())?;
    clauses(alloc, scope, q.clauses.as_slice())?;
    returns(alloc, scope, &q.returns)
}
