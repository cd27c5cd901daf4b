//! What WITH and RETURN make of the rows.

ghost use Rattle.std.specs.Prelude.{◌≡◌, ◌==◌, suc, length};
ghost use Rattle.cypher_parse.specs.Parsers.{between_commas, behind_commas};
ghost use Rattle.cypher_parse.specs.ExpressionParsers.{limited};
ghost use Rattle.cypher_parse.specs.ClauseParsers as clause;
ghost use Rattle.cypher_parse.specs.ProjectionParsers as projection;
ghost use Rattle.cypher_parse.specs.Projections as tree;
ghost use Rattle.cypher_parse.specs.Reads.{Reads};

use crate::clauses::filter;
use crate::expression::expression;
use crate::lists::in_front;
use crate::{Kind, Lexemes, Stop};
use cypher_syntax::{Expr, Item, Projection, Sort};
use graph_value::Name;
use sqlite_items::Items;
use std::alloc::Global;

/// `*` in the place of the items, or the items.
type Body = (bool, Items<Item>);

/// The keys of ORDER BY, and the numbers behind SKIP and LIMIT.
type Tail = (Items<Sort>, (Option<u64>, Option<u64>));

/// Whether DISTINCT stands in front, and the others.
type Parts = (bool, (Body, Tail));

#[tactic(auto, unfolding(crate::specs::ProjectionParsers::number))]
pub(crate) fn number(tokens: &mut Lexemes) -> Result<u64, Stop>
    ensures { Reads (projection.number tokens.old) result tokens.new }
{
    Ok(tokens.integer()?.unsigned_abs())
}

/// The number behind the word of this kind, if the word comes next.
#[tactic(auto, unfolding(crate::specs::ProjectionParsers::counted))]
fn counted(tokens: &mut Lexemes, kind: Kind) -> Result<Option<u64>, Stop>
    ensures { Reads (projection.counted kind tokens.old) result tokens.new }
{
    if !tokens.at(&[kind]) {
        return Ok(None);
    }
    tokens.expect(&[kind])?;
    Ok(Some(number(tokens)?))
}

/// Whether the greatest comes first.
#[tactic(auto, unfolding(crate::specs::ProjectionParsers::direction))]
fn direction(tokens: &mut Lexemes) -> Result<bool, Stop>
    ensures { Reads (projection.direction tokens.old) result tokens.new }
{
    if tokens.at(&[Kind::Asc, Kind::Ascending]) {
        tokens.expect(&[Kind::Asc, Kind::Ascending])?;
        return Ok(false);
    }
    if tokens.at(&[Kind::Desc, Kind::Descending]) {
        tokens.expect(&[Kind::Desc, Kind::Descending])?;
        return Ok(true);
    }
    Ok(false)
}

#[tactic(auto, unfolding(crate::specs::ProjectionParsers::sort))]
fn sort(alloc: Global, tokens: &mut Lexemes) -> Result<Sort, Stop>
    ensures { Reads (projection.sort limited tokens.old) result tokens.new }
{
    let expr = expression(alloc, tokens)?;
    let down = direction(tokens)?;
    Ok(Sort { expr, down })
}

fn sorts(alloc: Global, tokens: &mut Lexemes) -> Result<Items<Sort>, Stop>
    ensures { Reads (between_commas (projection.sort limited) tokens.old) result tokens.new }
{
    let first = sort(alloc, tokens)?;
    let rest = sorts_rest(alloc, tokens)?;
    Ok(in_front(alloc, first, rest)?)
}

fn sorts_rest(alloc: Global, tokens: &mut Lexemes) -> Result<Items<Sort>, Stop>
    ensures { Reads (behind_commas (projection.sort limited) tokens.old) result tokens.new }
{
    let mut rest = Items::new(alloc);
    while tokens.at(&[Kind::Comma]) {
        tokens.pass();
        rest.push(sort(alloc, tokens)?)?;
    }
    Ok(rest)
}

#[tactic(auto, unfolding(crate::specs::ProjectionParsers::sorts_or_none))]
fn sorts_or_none(alloc: Global, tokens: &mut Lexemes) -> Result<Items<Sort>, Stop>
    ensures { Reads (projection.sorts_or_none limited tokens.old) result tokens.new }
{
    if !tokens.at(&[Kind::Order]) {
        return Ok(Items::new(alloc));
    }
    tokens.expect(&[Kind::Order])?;
    tokens.expect(&[Kind::By])?;
    sorts(alloc, tokens)
}

#[tactic(auto, unfolding(crate::specs::ProjectionParsers::tail))]
fn tail(alloc: Global, tokens: &mut Lexemes) -> Result<Tail, Stop>
    ensures { Reads (projection.tail limited tokens.old) result tokens.new }
{
    let sorts = sorts_or_none(alloc, tokens)?;
    let skip = counted(tokens, Kind::Skip)?;
    let limit = counted(tokens, Kind::Limit)?;
    Ok((sorts, (skip, limit)))
}

#[tactic(auto, unfolding(crate::specs::ProjectionParsers::alias))]
fn alias(tokens: &mut Lexemes) -> Result<Name, Stop>
    ensures { Reads (projection.alias tokens.old) result tokens.new }
{
    tokens.expect(&[Kind::As])?;
    tokens.name()
}

#[tactic(auto, unfolding(crate::specs::ProjectionParsers::return_item))]
fn return_item(alloc: Global, tokens: &mut Lexemes) -> Result<Item, Stop>
    ensures { Reads (projection.return_item limited tokens.old) result tokens.new }
{
    let expr = expression(alloc, tokens)?;
    if !tokens.at(&[Kind::As]) {
        return Ok(Item { expr, name: None });
    }
    let name = alias(tokens)?;
    Ok(Item {
        expr,
        name: Some(name),
    })
}

/// An expression with its name, or a name alone.
#[tactic(auto, unfolding(crate::specs::ProjectionParsers::with_item))]
fn with_item(alloc: Global, tokens: &mut Lexemes) -> Result<Item, Stop>
    ensures { Reads (projection.with_item limited tokens.old) result tokens.new }
{
    let leads = tokens.leads();
    let before = tokens.len();
    let expr = expression(alloc, tokens)?;
    let is_name = is_one_read(before, tokens) && leads;
    rest_of_item(tokens, expr, is_name)
}

/// Whether one token was read since so many were left.
fn is_one_read(before: usize, tokens: &Lexemes) -> bool
    ensures { result ≡ (before == suc (length tokens.now)) }
{
    tokens.len() < before && before - tokens.len() == 1
}

/// What stands behind the expression of an item of WITH, which may be nothing behind a name alone.
fn rest_of_item(tokens: &mut Lexemes, expr: Expr, is_name: bool) -> Result<Item, Stop>
    ensures { Reads (projection.rest_of_item (expr, is_name) tokens.old) result tokens.new }
{
    if is_name && !tokens.at(&[Kind::As]) {
        return Ok(Item { expr, name: None });
    }
    let name = alias(tokens)?;
    Ok(Item {
        expr,
        name: Some(name),
    })
}

fn return_items(alloc: Global, tokens: &mut Lexemes) -> Result<Items<Item>, Stop>
    ensures { Reads (between_commas (projection.return_item limited) tokens.old) result tokens.new }
{
    let first = return_item(alloc, tokens)?;
    let rest = return_items_rest(alloc, tokens)?;
    Ok(in_front(alloc, first, rest)?)
}

fn return_items_rest(alloc: Global, tokens: &mut Lexemes) -> Result<Items<Item>, Stop>
    ensures { Reads (behind_commas (projection.return_item limited) tokens.old) result tokens.new }
{
    let mut rest = Items::new(alloc);
    while tokens.at(&[Kind::Comma]) {
        tokens.pass();
        rest.push(return_item(alloc, tokens)?)?;
    }
    Ok(rest)
}

fn with_items(alloc: Global, tokens: &mut Lexemes) -> Result<Items<Item>, Stop>
    ensures { Reads (between_commas (projection.with_item limited) tokens.old) result tokens.new }
{
    let first = with_item(alloc, tokens)?;
    let rest = with_items_rest(alloc, tokens)?;
    Ok(in_front(alloc, first, rest)?)
}

fn with_items_rest(alloc: Global, tokens: &mut Lexemes) -> Result<Items<Item>, Stop>
    ensures { Reads (behind_commas (projection.with_item limited) tokens.old) result tokens.new }
{
    let mut rest = Items::new(alloc);
    while tokens.at(&[Kind::Comma]) {
        tokens.pass();
        rest.push(with_item(alloc, tokens)?)?;
    }
    Ok(rest)
}

/// What stands in the place of the items of RETURN.
#[tactic(auto, unfolding(crate::specs::ProjectionParsers::body))]
fn return_body(alloc: Global, tokens: &mut Lexemes) -> Result<Body, Stop>
    ensures { Reads (projection.return_body limited tokens.old) result tokens.new }
{
    if tokens.at(&[Kind::Star]) {
        tokens.expect(&[Kind::Star])?;
        return Ok((true, Items::new(alloc)));
    }
    Ok((false, return_items(alloc, tokens)?))
}

/// What stands in the place of the items of WITH.
#[tactic(auto, unfolding(crate::specs::ProjectionParsers::body))]
fn with_body(alloc: Global, tokens: &mut Lexemes) -> Result<Body, Stop>
    ensures { Reads (projection.with_body limited tokens.old) result tokens.new }
{
    if tokens.at(&[Kind::Star]) {
        tokens.expect(&[Kind::Star])?;
        return Ok((true, Items::new(alloc)));
    }
    Ok((false, with_items(alloc, tokens)?))
}

#[tactic(auto, unfolding(crate::specs::ProjectionParsers::parts))]
fn return_parts(alloc: Global, tokens: &mut Lexemes) -> Result<Parts, Stop>
    ensures { Reads (projection.return_parts limited tokens.old) result tokens.new }
{
    let distinct = tokens.skip(Kind::Distinct);
    let body = return_body(alloc, tokens)?;
    let tail = tail(alloc, tokens)?;
    Ok((distinct, (body, tail)))
}

#[tactic(auto, unfolding(crate::specs::ProjectionParsers::parts))]
fn with_parts(alloc: Global, tokens: &mut Lexemes) -> Result<Parts, Stop>
    ensures { Reads (projection.with_parts limited tokens.old) result tokens.new }
{
    let distinct = tokens.skip(Kind::Distinct);
    let body = with_body(alloc, tokens)?;
    let tail = tail(alloc, tokens)?;
    Ok((distinct, (body, tail)))
}

fn projection_of(filter: Option<Expr>, parts: Parts) -> Projection
    ensures { result ≡ tree.projection_of filter parts }
{
    let (distinct, ((star, items), (sort, (skip, limit)))) = parts;
    Projection {
        distinct,
        star,
        items,
        sort,
        skip,
        limit,
        filter,
    }
}

/// What stands behind RETURN.
#[tactic(auto, unfolding(crate::specs::ProjectionParsers::returned))]
pub(crate) fn returned(alloc: Global, tokens: &mut Lexemes) -> Result<Projection, Stop>
    ensures { Reads (projection.returned limited tokens.old) result tokens.new }
{
    let parts = return_parts(alloc, tokens)?;
    Ok(projection_of(None, parts))
}

/// What stands behind WITH, with its WHERE.
#[tactic(auto, unfolding(crate::specs::ProjectionParsers::passed))]
pub(crate) fn passed(alloc: Global, tokens: &mut Lexemes) -> Result<Projection, Stop>
    ensures { Reads (projection.passed limited tokens.old) result tokens.new }
{
    let parts = with_parts(alloc, tokens)?;
    let filter = filter(alloc, tokens)?;
    Ok(projection_of(filter, parts))
}
