//! Paths of patterns: those that are sought, and those that are made.

ghost use Rattle.std.specs.Prelude.{◌≡◌};
ghost use Rattle.cypher_parse.specs.ExpressionParsers.{limited};
ghost use Rattle.cypher_parse.specs.PatternParsers as patterns;
ghost use Rattle.cypher_parse.specs.Patterns as tree;
ghost use Rattle.cypher_parse.specs.Reads.{Reads};

use crate::kinds::EDGE_SIGNS;
use crate::patterns::{kinds_or_none, map_or_none, name_or_none, node};
use crate::{Kind, Lexemes, Stop};
use cypher_syntax::{Arrow, EdgePattern, Expr, NodePattern, Pattern};
use graph_value::Name;
use sqlite_items::Items;
use std::alloc::Global;

/// What stands between the dashes of an edge: its name, its kinds and its properties.
type Details = (Option<Name>, (Items<Name>, Option<Items<(Name, Expr)>>));

fn edge_of(arrow: Arrow, details: Details) -> EdgePattern
    ensures { result ≡ tree.edge_of arrow details }
{
    let (name, (kinds, map)) = details;
    EdgePattern {
        name,
        kinds,
        arrow,
        map,
    }
}

#[tactic(auto, unfolding(crate::specs::PatternParsers::inner))]
fn inner(alloc: Global, tokens: &mut Lexemes) -> Result<Details, Stop>
    ensures { Reads (patterns.inner limited tokens.old) result tokens.new }
{
    if !tokens.at(&[Kind::LeftBracket]) {
        return Ok((None, (Items::new(alloc), None)));
    }
    tokens.expect(&[Kind::LeftBracket])?;
    let name = name_or_none(tokens)?;
    let kinds = kinds_or_none(alloc, tokens)?;
    let map = map_or_none(alloc, tokens)?;
    tokens.expect(&[Kind::RightBracket])?;
    Ok((name, (kinds, map)))
}

#[tactic(auto, unfolding(crate::specs::PatternParsers::edge))]
fn edge(alloc: Global, tokens: &mut Lexemes) -> Result<EdgePattern, Stop>
    ensures { Reads (patterns.edge limited tokens.old) result tokens.new }
{
    if tokens.at(&[Kind::Less]) {
        tokens.expect(&[Kind::Less])?;
        tokens.expect(&[Kind::Minus])?;
        let details = inner(alloc, tokens)?;
        tokens.expect(&[Kind::Minus])?;
        return Ok(edge_of(Arrow::Left, details));
    }
    tokens.expect(&[Kind::Minus])?;
    let details = inner(alloc, tokens)?;
    tokens.expect(&[Kind::Minus])?;
    let is_right = tokens.skip(Kind::Greater);
    let arrow = if is_right {
        Arrow::Right
    } else {
        Arrow::Neither
    };
    Ok(edge_of(arrow, details))
}

#[tactic(auto, unfolding(crate::specs::PatternParsers::new_inner))]
fn new_inner(alloc: Global, tokens: &mut Lexemes) -> Result<Details, Stop>
    ensures { Reads (patterns.new_inner limited tokens.old) result tokens.new }
{
    tokens.expect(&[Kind::LeftBracket])?;
    let name = name_or_none(tokens)?;
    tokens.expect(&[Kind::Colon])?;
    let kind = tokens.schema_name()?;
    let map = map_or_none(alloc, tokens)?;
    tokens.expect(&[Kind::RightBracket])?;
    let mut kinds = Items::new(alloc);
    kinds.push(kind)?;
    Ok((name, (kinds, map)))
}

#[tactic(auto, unfolding(crate::specs::PatternParsers::new_edge))]
fn new_edge(alloc: Global, tokens: &mut Lexemes) -> Result<EdgePattern, Stop>
    ensures { Reads (patterns.new_edge limited tokens.old) result tokens.new }
{
    if tokens.at(&[Kind::Less]) {
        tokens.expect(&[Kind::Less])?;
        tokens.expect(&[Kind::Minus])?;
        let details = new_inner(alloc, tokens)?;
        tokens.expect(&[Kind::Minus])?;
        return Ok(edge_of(Arrow::Left, details));
    }
    tokens.expect(&[Kind::Minus])?;
    let details = new_inner(alloc, tokens)?;
    tokens.expect(&[Kind::Minus])?;
    tokens.expect(&[Kind::Greater])?;
    Ok(edge_of(Arrow::Right, details))
}

/// A path that is sought.
#[tactic(auto, unfolding(crate::specs::PatternParsers::path))]
pub(crate) fn path(alloc: Global, tokens: &mut Lexemes) -> Result<Pattern, Stop>
    ensures { Reads (patterns.path limited tokens.old) result tokens.new }
{
    let first = node(alloc, tokens)?;
    let steps = path_rest(alloc, tokens)?;
    Ok(Pattern { first, steps })
}

fn path_rest(alloc: Global, tokens: &mut Lexemes) -> Result<Items<(EdgePattern, NodePattern)>, Stop>
    ensures { Reads (patterns.path_more limited tokens.old) result tokens.new }
{
    let mut rest = Items::new(alloc);
    while tokens.at(&EDGE_SIGNS) {
        rest.push(path_step(alloc, tokens)?)?;
    }
    Ok(rest)
}

#[tactic(auto, unfolding(crate::specs::PatternParsers::path_step))]
fn path_step(alloc: Global, tokens: &mut Lexemes) -> Result<(EdgePattern, NodePattern), Stop>
    ensures { Reads (patterns.path_step limited tokens.old) result tokens.new }
{
    let edge = edge(alloc, tokens)?;
    let node = node(alloc, tokens)?;
    Ok((edge, node))
}

/// A path that is made: each edge has one kind and a direction.
#[tactic(auto, unfolding(crate::specs::PatternParsers::new_path))]
pub(crate) fn new_path(alloc: Global, tokens: &mut Lexemes) -> Result<Pattern, Stop>
    ensures { Reads (patterns.new_path limited tokens.old) result tokens.new }
{
    let first = node(alloc, tokens)?;
    let steps = new_rest(alloc, tokens)?;
    Ok(Pattern { first, steps })
}

fn new_rest(alloc: Global, tokens: &mut Lexemes) -> Result<Items<(EdgePattern, NodePattern)>, Stop>
    ensures { Reads (patterns.new_more limited tokens.old) result tokens.new }
{
    let mut rest = Items::new(alloc);
    while tokens.at(&EDGE_SIGNS) {
        rest.push(new_step(alloc, tokens)?)?;
    }
    Ok(rest)
}

#[tactic(auto, unfolding(crate::specs::PatternParsers::new_step))]
fn new_step(alloc: Global, tokens: &mut Lexemes) -> Result<(EdgePattern, NodePattern), Stop>
    ensures { Reads (patterns.new_step limited tokens.old) result tokens.new }
{
    let edge = new_edge(alloc, tokens)?;
    let node = node(alloc, tokens)?;
    Ok((edge, node))
}
