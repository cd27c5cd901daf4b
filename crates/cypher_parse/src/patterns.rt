//! Patterns.

ghost use Rattle.cypher_parse.specs.Parsers.{between_commas, behind_commas};
ghost use Rattle.cypher_parse.specs.ExpressionParsers.{limited};
ghost use Rattle.cypher_parse.specs.PatternParsers as patterns;
ghost use Rattle.cypher_parse.specs.Reads.{Reads};

use crate::expression::expression;
use crate::kinds::NAMES;
use crate::labels::labels_rest;
use crate::lists::in_front;
use crate::{Kind, Lexemes, Stop};
use cypher_syntax::{Expr, NodePattern};
use graph_value::Name;
use sqlite_items::Items;
use std::alloc::Global;

#[tactic(auto, unfolding(crate::specs::PatternParsers::name_or_none))]
pub(crate) fn name_or_none(tokens: &mut Lexemes) -> Result<Option<Name>, Stop>
    ensures { Reads (patterns.name_or_none tokens.old) result tokens.new }
{
    if !tokens.at(&NAMES) {
        return Ok(None);
    }
    Ok(Some(tokens.name()?))
}

/// The kinds of an edge, if any are written.
#[tactic(auto, unfolding(crate::specs::PatternParsers::kinds_or_none))]
pub(crate) fn kinds_or_none(alloc: Global, tokens: &mut Lexemes) -> Result<Items<Name>, Stop>
    ensures { Reads (patterns.kinds_or_none tokens.old) result tokens.new }
{
    if !tokens.at(&[Kind::Colon]) {
        return Ok(Items::new(alloc));
    }
    tokens.expect(&[Kind::Colon])?;
    let first = tokens.schema_name()?;
    let rest = kinds_rest(alloc, tokens)?;
    Ok(in_front(alloc, first, rest)?)
}

fn kinds_rest(alloc: Global, tokens: &mut Lexemes) -> Result<Items<Name>, Stop>
    ensures { Reads (patterns.kinds_more tokens.old) result tokens.new }
{
    let mut rest = Items::new(alloc);
    while tokens.at(&[Kind::Bar]) {
        rest.push(another_kind(tokens)?)?;
    }
    Ok(rest)
}

fn another_kind(tokens: &mut Lexemes) -> Result<Name, Stop>
    ensures { Reads (patterns.another_kind tokens.old) result tokens.new }
{
    tokens.expect(&[Kind::Bar])?;
    let _ = tokens.skip(Kind::Colon);
    tokens.schema_name()
}

#[tactic(auto, unfolding(crate::specs::PatternParsers::entry))]
fn entry(alloc: Global, tokens: &mut Lexemes) -> Result<(Name, Expr), Stop>
    ensures { Reads (patterns.entry limited tokens.old) result tokens.new }
{
    let key = tokens.schema_name()?;
    tokens.expect(&[Kind::Colon])?;
    let value = expression(alloc, tokens)?;
    Ok((key, value))
}

/// One or more of them, between commas.
fn entries(alloc: Global, tokens: &mut Lexemes) -> Result<Items<(Name, Expr)>, Stop>
    ensures { Reads (between_commas (patterns.entry limited) tokens.old) result tokens.new }
{
    let first = entry(alloc, tokens)?;
    let rest = entries_rest(alloc, tokens)?;
    Ok(in_front(alloc, first, rest)?)
}

fn entries_rest(alloc: Global, tokens: &mut Lexemes) -> Result<Items<(Name, Expr)>, Stop>
    ensures { Reads (behind_commas (patterns.entry limited) tokens.old) result tokens.new }
{
    let mut rest = Items::new(alloc);
    while tokens.at(&[Kind::Comma]) {
        tokens.pass();
        rest.push(entry(alloc, tokens)?)?;
    }
    Ok(rest)
}

/// Properties between braces.
#[tactic(auto, unfolding(crate::specs::PatternParsers::property_map))]
fn property_map(alloc: Global, tokens: &mut Lexemes) -> Result<Items<(Name, Expr)>, Stop>
    ensures { Reads (patterns.property_map limited tokens.old) result tokens.new }
{
    tokens.expect(&[Kind::LeftBrace])?;
    if tokens.at(&[Kind::RightBrace]) {
        tokens.expect(&[Kind::RightBrace])?;
        return Ok(Items::new(alloc));
    }
    let map = entries(alloc, tokens)?;
    tokens.expect(&[Kind::RightBrace])?;
    Ok(map)
}

#[tactic(auto, unfolding(crate::specs::PatternParsers::map_or_none))]
pub(crate) fn map_or_none(
    alloc: Global,
    tokens: &mut Lexemes,
) -> Result<Option<Items<(Name, Expr)>>, Stop>
    ensures { Reads (patterns.map_or_none limited tokens.old) result tokens.new }
{
    if !tokens.at(&[Kind::LeftBrace]) {
        return Ok(None);
    }
    Ok(Some(property_map(alloc, tokens)?))
}

#[tactic(auto, unfolding(crate::specs::PatternParsers::node))]
pub(crate) fn node(alloc: Global, tokens: &mut Lexemes) -> Result<NodePattern, Stop>
    ensures { Reads (patterns.node limited tokens.old) result tokens.new }
{
    tokens.expect(&[Kind::LeftParen])?;
    let name = name_or_none(tokens)?;
    let labels = labels_rest(alloc, tokens)?;
    let map = map_or_none(alloc, tokens)?;
    tokens.expect(&[Kind::RightParen])?;
    Ok(NodePattern { name, labels, map })
}
