ghost use Rattle.cypher_parse.specs.ExpressionParsers as spec;
ghost use Rattle.cypher_parse.specs.Reads.{Reads};

use crate::operators::disjunction;
use crate::{Lexemes, Stop};
use cypher_syntax::Expr;
use std::alloc::Global;

/// How many tokens may be open at once.
const LEVELS: u8 = 64;

/// An expression, in which at most 64 tokens are open at once.
pub(crate) fn expression(alloc: Global, tokens: &mut Lexemes) -> Result<Expr, Stop>
    ensures { Reads (spec.expression 64 tokens.old) result tokens.new }
{
    disjunction(alloc, tokens, LEVELS)
}
