ghost use Rattle.cypher_parse.specs.ExpressionParsers as spec;
ghost use Rattle.cypher_parse.specs.Reads.{Reads};

use crate::{Kind, Lexemes, Stop};
use cypher_syntax::Expr;
use graph_value::Value;

/// A number, a text, a truth value or null.
#[tactic(auto, unfolding(crate::specs::ExpressionParsers::literal))]
pub(crate) fn literal(tokens: &mut Lexemes) -> Result<Expr, Stop>
    ensures { Reads (spec.literal tokens.old) result tokens.new }
{
    if tokens.at(&[Kind::Integer]) {
        return Ok(Expr::Lit(Value::Int(tokens.integer()?)));
    }
    if tokens.at(&[Kind::Quote]) {
        return Ok(Expr::Lit(Value::Text(tokens.text()?)));
    }
    if tokens.at(&[Kind::True]) {
        tokens.expect(&[Kind::True])?;
        return Ok(Expr::Lit(Value::Bool(true)));
    }
    if tokens.at(&[Kind::False]) {
        tokens.expect(&[Kind::False])?;
        return Ok(Expr::Lit(Value::Bool(false)));
    }
    tokens.expect(&[Kind::Null])?;
    Ok(Expr::Lit(Value::Null))
}
