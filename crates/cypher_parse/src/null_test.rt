ghost use Rattle.std.specs.Prelude.{[], ◌∷◌};
ghost use Rattle.cypher_parse.specs.ExpressionParsers as spec;
ghost use Rattle.cypher_parse.specs.Parsers as parsers;
ghost use Rattle.cypher_parse.specs.Reads.{Reads};

use crate::{Kind, Lexemes, Stop};
use cypher_syntax::PredOp;

/// IS NULL or IS NOT NULL.
#[tactic(auto, unfolding(crate::specs::ExpressionParsers::null_test))]
pub(crate) fn null_test(tokens: &mut Lexemes) -> Result<PredOp, Stop>
    ensures { Reads (parsers.after (Kind.Is ∷ []) spec.null_test tokens.old) result tokens.new }
{
    tokens.expect(&[Kind::Is])?;
    if tokens.at(&[Kind::Not]) {
        tokens.pass();
        tokens.expect(&[Kind::Null])?;
        return Ok(PredOp::IsNotNull);
    }
    tokens.expect(&[Kind::Null])?;
    Ok(PredOp::IsNull)
}
