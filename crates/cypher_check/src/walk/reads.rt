ghost use Rattle.std.specs.Prelude.{◌≡◌, ◌∷◌, [], OnOk};
ghost use Rattle.std.specs.List.{flat_map};
ghost use Rattle.cypher_check.specs.Marks.{expr_marks};
ghost use Rattle.cypher_check.specs.Asks.{Reads, step, after};
ghost use Rattle.cypher_check.specs.Clauses.{plain, uses, filter_asks, map_asks, has_aggregate};

use crate::CheckRefused;
use crate::names::expr::expr;
use crate::names::lists::has;
use crate::names::place::Place;
use crate::scope::Scope;
use cypher_syntax::Expr;
use graph_value::{Name, NoMemory};
use sqlite_items::Items;

/// An expression at a place.
#[tactic(auto, unfolding(crate::specs::Asks::step))]
pub(crate) fn read(scope: &mut Scope, e: &Expr, place: Place) -> Result<(), NoMemory>
    ensures { OnOk result (scope.new ≡ step scope.old (Reads (expr_marks e.now place))) }
{
    if scope.fault.is_some() {
        return Ok(());
    }
    let found = expr(scope.names.as_slice(), e, place);
    scope.read(found)
}

/// Whether an aggregate stands in an expression.
pub fn has_aggregate(e: &Expr) -> bool
    ensures { result ≡ has_aggregate e.now }
{
    expr(&[], e, Place::Seeking).is_some()
}

/// An expression in which no aggregate may stand.
pub(crate) fn plain(scope: &mut Scope, e: &Expr) -> Result<(), NoMemory>
    ensures { OnOk result (scope.new ≡ after scope.old (plain e.now)) }
{
    read(scope, e, Place::Plain)
}

/// A name that stands alone.
#[tactic(auto, unfolding(crate::specs::Asks::step))]
pub(crate) fn use_name(scope: &mut Scope, name: &Name) -> Result<(), NoMemory>
    ensures { OnOk result (scope.new ≡ after scope.old (uses name.now)) }
{
    if scope.fault.is_none() && !has(scope.names.as_slice(), name) {
        scope.fail(CheckRefused::Unbound(name.copy()?));
    }
    Ok(())
}

/// The condition of a WHERE.
pub(crate) fn filter(scope: &mut Scope, filter: &Option<Expr>) -> Result<(), NoMemory>
    ensures { OnOk result (scope.new ≡ after scope.old (filter_asks filter.now)) }
{
    match filter {
        Some(e) => plain(scope, e),
        None => Ok(()),
    }
}

pub(crate) fn properties(scope: &mut Scope, properties: &[(Name, Expr)]) -> Result<(), NoMemory>
    ensures { OnOk result (scope.new ≡ after scope.old (flat_map (λ p. plain p.1) properties.now)) }
{
    for (_, e) in properties {
        plain(scope, e)?;
    }
    Ok(())
}

/// The properties between braces.
pub(crate) fn map(scope: &mut Scope, map: &Option<Items<(Name, Expr)>>) -> Result<(), NoMemory>
    ensures { OnOk result (scope.new ≡ after scope.old (map_asks map.now)) }
{
    match map {
        Some(map) => properties(scope, map.as_slice()),
        None => Ok(()),
    }
}
