//! Labels behind colons.

ghost use Rattle.std.specs.Prelude.{[], ◌∷◌};
ghost use Rattle.cypher_parse.specs.ExpressionParsers as spec;
ghost use Rattle.cypher_parse.specs.Parsers as parsers;
ghost use Rattle.cypher_parse.specs.Reads.{Reads};

use crate::lists::in_front;
use crate::{Kind, Lexemes, Stop};
use cypher_syntax::PostOp;
use graph_value::Name;
use sqlite_items::Items;
use std::alloc::Global;

/// A test of labels, if one stands here.
#[tactic(auto, unfolding(crate::specs::ExpressionParsers::tests))]
pub(crate) fn tests(alloc: Global, tokens: &mut Lexemes) -> Result<Items<PostOp>, Stop>
    ensures { Reads (spec.tests tokens.old) result tokens.new }
{
    let mut tests = Items::new(alloc);
    if tokens.at(&[Kind::Colon]) {
        tests.push(PostOp::Labels(labels(alloc, tokens)?))?;
    }
    Ok(tests)
}

#[tactic(auto, unfolding(crate::specs::ExpressionParsers::labels, crate::specs::ExpressionParsers::labels_more))]
pub(crate) fn labels(alloc: Global, tokens: &mut Lexemes) -> Result<Items<Name>, Stop>
    ensures { Reads (spec.labels tokens.old) result tokens.new }
{
    let first = label(tokens)?;
    let rest = labels_rest(alloc, tokens)?;
    Ok(in_front(alloc, first, rest)?)
}

pub(crate) fn labels_rest(alloc: Global, tokens: &mut Lexemes) -> Result<Items<Name>, Stop>
    ensures { Reads (spec.labels_more tokens.old) result tokens.new }
{
    let mut rest = Items::new(alloc);
    while tokens.at(&[Kind::Colon]) {
        rest.push(label(tokens)?)?;
    }
    Ok(rest)
}

fn label(tokens: &mut Lexemes) -> Result<Name, Stop>
    ensures { Reads (parsers.after (Kind.Colon ∷ []) spec.schema tokens.old) result tokens.new }
{
    tokens.expect(&[Kind::Colon])?;
    tokens.schema_name()
}
