//! Clauses.

ghost use Rattle.cypher_parse.specs.Parsers.{between_commas, behind_commas};
ghost use Rattle.cypher_parse.specs.ExpressionParsers.{limited};
ghost use Rattle.cypher_parse.specs.ExpressionParsers as spec;
ghost use Rattle.cypher_parse.specs.PatternParsers as patterns;
ghost use Rattle.cypher_parse.specs.ClauseParsers as clause;
ghost use Rattle.cypher_parse.specs.Reads.{Reads};

use crate::expression::expression;
use crate::labels::labels;
use crate::lists::in_front;
use crate::paths::{new_path, path};
use crate::{Kind, Lexemes, Stop};
use cypher_syntax::{Clause, Expr, MatchClause, Pattern, RemoveItem, SetItem, Unwind, Update};
use graph_value::Name;
use sqlite_items::Items;
use std::alloc::Global;

/// The condition of a WHERE, if there is one.
#[tactic(auto, unfolding(crate::specs::ClauseParsers::filter))]
pub(crate) fn filter(alloc: Global, tokens: &mut Lexemes) -> Result<Option<Expr>, Stop>
    ensures { Reads (clause.filter limited tokens.old) result tokens.new }
{
    if !tokens.at(&[Kind::Where]) {
        return Ok(None);
    }
    tokens.expect(&[Kind::Where])?;
    Ok(Some(expression(alloc, tokens)?))
}

/// One or more of them, between commas.
fn paths(alloc: Global, tokens: &mut Lexemes) -> Result<Items<Pattern>, Stop>
    ensures { Reads (between_commas (patterns.path limited) tokens.old) result tokens.new }
{
    let first = path(alloc, tokens)?;
    let rest = paths_rest(alloc, tokens)?;
    Ok(in_front(alloc, first, rest)?)
}

fn paths_rest(alloc: Global, tokens: &mut Lexemes) -> Result<Items<Pattern>, Stop>
    ensures { Reads (behind_commas (patterns.path limited) tokens.old) result tokens.new }
{
    let mut rest = Items::new(alloc);
    while tokens.at(&[Kind::Comma]) {
        tokens.pass();
        rest.push(path(alloc, tokens)?)?;
    }
    Ok(rest)
}

#[tactic(auto, unfolding(crate::specs::ClauseParsers::reading))]
pub(crate) fn reading(alloc: Global, tokens: &mut Lexemes) -> Result<Clause, Stop>
    ensures { Reads (clause.reading limited tokens.old) result tokens.new }
{
    if tokens.at(&[Kind::Unwind]) {
        tokens.expect(&[Kind::Unwind])?;
        let list = expression(alloc, tokens)?;
        tokens.expect(&[Kind::As])?;
        let name = tokens.name()?;
        return Ok(Clause::Unwind(Unwind { list, name }));
    }
    let optional = tokens.skip(Kind::Optional);
    tokens.expect(&[Kind::Match])?;
    let patterns = paths(alloc, tokens)?;
    let filter = filter(alloc, tokens)?;
    Ok(Clause::Match(MatchClause {
        optional,
        patterns,
        filter,
    }))
}

#[tactic(auto, unfolding(crate::specs::ClauseParsers::set_item))]
fn set_item(alloc: Global, tokens: &mut Lexemes) -> Result<SetItem, Stop>
    ensures { Reads (clause.set_item limited tokens.old) result tokens.new }
{
    let name = tokens.name()?;
    if tokens.at(&[Kind::Point]) {
        tokens.expect(&[Kind::Point])?;
        let key = tokens.schema_name()?;
        tokens.expect(&[Kind::Equal])?;
        let value = expression(alloc, tokens)?;
        return Ok(SetItem::Prop(name, key, value));
    }
    let labels = labels(alloc, tokens)?;
    Ok(SetItem::Labels(name, labels))
}

/// One or more of them, between commas.
fn set_items(alloc: Global, tokens: &mut Lexemes) -> Result<Items<SetItem>, Stop>
    ensures { Reads (between_commas (clause.set_item limited) tokens.old) result tokens.new }
{
    let first = set_item(alloc, tokens)?;
    let rest = set_items_rest(alloc, tokens)?;
    Ok(in_front(alloc, first, rest)?)
}

fn set_items_rest(alloc: Global, tokens: &mut Lexemes) -> Result<Items<SetItem>, Stop>
    ensures { Reads (behind_commas (clause.set_item limited) tokens.old) result tokens.new }
{
    let mut rest = Items::new(alloc);
    while tokens.at(&[Kind::Comma]) {
        tokens.pass();
        rest.push(set_item(alloc, tokens)?)?;
    }
    Ok(rest)
}

#[tactic(auto, unfolding(crate::specs::ClauseParsers::remove_item))]
fn remove_item(alloc: Global, tokens: &mut Lexemes) -> Result<RemoveItem, Stop>
    ensures { Reads (clause.remove_item tokens.old) result tokens.new }
{
    let name = tokens.name()?;
    if tokens.at(&[Kind::Point]) {
        tokens.expect(&[Kind::Point])?;
        let key = tokens.schema_name()?;
        return Ok(RemoveItem::Prop(name, key));
    }
    let labels = labels(alloc, tokens)?;
    Ok(RemoveItem::Labels(name, labels))
}

/// One or more of them, between commas.
fn remove_items(alloc: Global, tokens: &mut Lexemes) -> Result<Items<RemoveItem>, Stop>
    ensures { Reads (between_commas clause.remove_item tokens.old) result tokens.new }
{
    let first = remove_item(alloc, tokens)?;
    let rest = remove_items_rest(alloc, tokens)?;
    Ok(in_front(alloc, first, rest)?)
}

fn remove_items_rest(alloc: Global, tokens: &mut Lexemes) -> Result<Items<RemoveItem>, Stop>
    ensures { Reads (behind_commas clause.remove_item tokens.old) result tokens.new }
{
    let mut rest = Items::new(alloc);
    while tokens.at(&[Kind::Comma]) {
        tokens.pass();
        rest.push(remove_item(alloc, tokens)?)?;
    }
    Ok(rest)
}

/// One or more of them, between commas.
fn names(alloc: Global, tokens: &mut Lexemes) -> Result<Items<Name>, Stop>
    ensures { Reads (between_commas spec.name tokens.old) result tokens.new }
{
    let first = tokens.name()?;
    let rest = names_rest(alloc, tokens)?;
    Ok(in_front(alloc, first, rest)?)
}

fn names_rest(alloc: Global, tokens: &mut Lexemes) -> Result<Items<Name>, Stop>
    ensures { Reads (behind_commas spec.name tokens.old) result tokens.new }
{
    let mut rest = Items::new(alloc);
    while tokens.at(&[Kind::Comma]) {
        tokens.pass();
        rest.push(tokens.name()?)?;
    }
    Ok(rest)
}

/// One or more of them, between commas.
fn new_paths(alloc: Global, tokens: &mut Lexemes) -> Result<Items<Pattern>, Stop>
    ensures { Reads (between_commas (patterns.new_path limited) tokens.old) result tokens.new }
{
    let first = new_path(alloc, tokens)?;
    let rest = new_paths_rest(alloc, tokens)?;
    Ok(in_front(alloc, first, rest)?)
}

fn new_paths_rest(alloc: Global, tokens: &mut Lexemes) -> Result<Items<Pattern>, Stop>
    ensures { Reads (behind_commas (patterns.new_path limited) tokens.old) result tokens.new }
{
    let mut rest = Items::new(alloc);
    while tokens.at(&[Kind::Comma]) {
        tokens.pass();
        rest.push(new_path(alloc, tokens)?)?;
    }
    Ok(rest)
}

#[tactic(auto, unfolding(crate::specs::ClauseParsers::updating))]
pub(crate) fn updating(alloc: Global, tokens: &mut Lexemes) -> Result<Clause, Stop>
    ensures { Reads (clause.updating limited tokens.old) result tokens.new }
{
    if tokens.at(&[Kind::Create]) {
        tokens.expect(&[Kind::Create])?;
        return Ok(Clause::Update(Update::Create(new_paths(alloc, tokens)?)));
    }
    if tokens.at(&[Kind::Set]) {
        tokens.expect(&[Kind::Set])?;
        return Ok(Clause::Update(Update::Set(set_items(alloc, tokens)?)));
    }
    if tokens.at(&[Kind::Remove]) {
        tokens.expect(&[Kind::Remove])?;
        return Ok(Clause::Update(Update::Remove(remove_items(alloc, tokens)?)));
    }
    let detach = tokens.skip(Kind::Detach);
    tokens.expect(&[Kind::Delete])?;
    let names = names(alloc, tokens)?;
    Ok(Clause::Update(Update::Delete { detach, names }))
}
