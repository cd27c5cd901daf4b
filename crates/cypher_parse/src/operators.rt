//! Operators. Each function reads one level of precedence; the further operands of a chain are read
//! one by one, and put together outside of this cycle of functions (chains.rt).

ghost use Rattle.std.specs.Prelude.{[], ◌∷◌};
ghost use Rattle.cypher_parse.specs.ExpressionParsers as spec;
ghost use Rattle.cypher_parse.specs.Parsers as parsers;
ghost use Rattle.cypher_parse.specs.Reads.{Reads};
ghost use Rattle.cypher_syntax.specs.declared.tree.expr.Expr.TheVariants as tree;
ghost use Rattle.cypher_parse.specs.declared.kinds.TheConstants as kinds;

use crate::chains::{alternatives, compared, conjuncts, exclusives, multiplied, summed, tested};
use crate::kinds::{COMPARISONS, PREDICATE_WORDS, PRODUCT_SIGNS, SUM_SIGNS};
use crate::meaning::{comparison_of, product_sign_of, sum_sign_of};
use crate::null_test::null_test;
use crate::operands::post;
use crate::{Kind, Lexemes, Stop};
use cypher_syntax::{CmpOp, Expr, PredOp, ProdOp, SumOp};
use graph_value::Value;
use sqlite_items::{Boxed, Items};
use std::alloc::Global;

/// An expression, in which at most `depth` tokens are open at once.
#[cycle(parse)]
pub(crate) fn disjunction(alloc: Global, tokens: &mut Lexemes, depth: u8) -> Result<Expr, Stop>
    ensures { Reads (spec.disjunction (spec.at depth) tokens.old) result tokens.new }
{
    let first = exclusive(alloc, tokens, depth)?;
    let rest = disjunction_rest(alloc, tokens, depth);
    alternatives(alloc, first, rest)
}

#[cycle(parse)]
fn disjunction_rest(alloc: Global, tokens: &mut Lexemes, depth: u8) -> Result<Items<Expr>, Stop>
    ensures { Reads (spec.disjunction_more (spec.at depth) tokens.old) result tokens.new }
{
    let mut rest = Items::new(alloc);
    while tokens.at(&[Kind::Or]) {
        tokens.pass();
        rest.push(exclusive(alloc, tokens, depth)?)?;
    }
    Ok(rest)
}

#[cycle(parse)]
fn exclusive(alloc: Global, tokens: &mut Lexemes, depth: u8) -> Result<Expr, Stop>
    ensures { Reads (spec.exclusive (spec.at depth) tokens.old) result tokens.new }
{
    let first = conjunction(alloc, tokens, depth)?;
    let rest = exclusive_rest(alloc, tokens, depth);
    exclusives(alloc, first, rest)
}

#[cycle(parse)]
fn exclusive_rest(alloc: Global, tokens: &mut Lexemes, depth: u8) -> Result<Items<Expr>, Stop>
    ensures { Reads (spec.exclusive_more (spec.at depth) tokens.old) result tokens.new }
{
    let mut rest = Items::new(alloc);
    while tokens.at(&[Kind::Xor]) {
        tokens.pass();
        rest.push(conjunction(alloc, tokens, depth)?)?;
    }
    Ok(rest)
}

#[cycle(parse)]
fn conjunction(alloc: Global, tokens: &mut Lexemes, depth: u8) -> Result<Expr, Stop>
    ensures { Reads (spec.conjunction (spec.at depth) tokens.old) result tokens.new }
{
    let first = negation(alloc, tokens, depth)?;
    let rest = conjunction_rest(alloc, tokens, depth);
    conjuncts(alloc, first, rest)
}

#[cycle(parse)]
fn conjunction_rest(alloc: Global, tokens: &mut Lexemes, depth: u8) -> Result<Items<Expr>, Stop>
    ensures { Reads (spec.conjunction_more (spec.at depth) tokens.old) result tokens.new }
{
    let mut rest = Items::new(alloc);
    while tokens.at(&[Kind::And]) {
        tokens.pass();
        rest.push(negation(alloc, tokens, depth)?)?;
    }
    Ok(rest)
}

#[cycle(parse)]
#[tactic(auto, unfolding(crate::specs::ExpressionParsers::negation))]
pub(crate) fn negation(alloc: Global, tokens: &mut Lexemes, depth: u8) -> Result<Expr, Stop>
    ensures { Reads (spec.negation (spec.at depth) tokens.old) result tokens.new }
{
    if !tokens.at(&[Kind::Not]) {
        return comparison(alloc, tokens, depth);
    }
    if depth == 0 {
        return Err(Stop::TooDeep);
    }
    tokens.pass();
    negated(alloc, tokens, depth - 1)
}

/// What stands behind NOT.
#[cycle(parse)]
fn negated(alloc: Global, tokens: &mut Lexemes, inside: u8) -> Result<Expr, Stop>
    ensures { Reads (parsers.map_out tree.Not (spec.negation (spec.at inside)) tokens.old)
        result tokens.new }
{
    let operand = negation(alloc, tokens, inside)?;
    Ok(Expr::Not(Boxed::new(alloc, operand)?))
}

#[cycle(parse)]
fn comparison(alloc: Global, tokens: &mut Lexemes, depth: u8) -> Result<Expr, Stop>
    ensures { Reads (spec.comparison (spec.at depth) tokens.old) result tokens.new }
{
    let first = predicate(alloc, tokens, depth)?;
    let rest = comparison_rest(alloc, tokens, depth);
    compared(alloc, first, rest)
}

#[cycle(parse)]
fn comparison_rest(
    alloc: Global,
    tokens: &mut Lexemes,
    depth: u8,
) -> Result<Items<(CmpOp, Expr)>, Stop>
    ensures { Reads (spec.comparison_more (spec.at depth) tokens.old) result tokens.new }
{
    let mut rest = Items::new(alloc);
    while tokens.at(&COMPARISONS) {
        rest.push(comparison_turn(alloc, tokens, depth)?)?;
    }
    Ok(rest)
}

#[cycle(parse)]
fn comparison_turn(alloc: Global, tokens: &mut Lexemes, depth: u8) -> Result<(CmpOp, Expr), Stop>
    ensures { Reads (spec.comparison_turn (spec.at depth) tokens.old) result tokens.new }
{
    let kind = tokens.kind(&COMPARISONS)?;
    let operand = predicate(alloc, tokens, depth)?;
    Ok((comparison_of(kind), operand))
}

#[cycle(parse)]
fn predicate(alloc: Global, tokens: &mut Lexemes, depth: u8) -> Result<Expr, Stop>
    ensures { Reads (spec.predicate (spec.at depth) tokens.old) result tokens.new }
{
    let first = sum(alloc, tokens, depth)?;
    let rest = predicate_rest(alloc, tokens, depth);
    tested(alloc, first, rest)
}

#[cycle(parse)]
fn predicate_rest(alloc: Global, tokens: &mut Lexemes, depth: u8) -> Result<Items<PredOp>, Stop>
    ensures { Reads (spec.predicate_more (spec.at depth) tokens.old) result tokens.new }
{
    let mut rest = Items::new(alloc);
    while tokens.at(&PREDICATE_WORDS) {
        rest.push(test_behind(alloc, tokens, depth)?)?;
    }
    Ok(rest)
}

/// A test behind its operand.
#[cycle(parse)]
fn test_behind(alloc: Global, tokens: &mut Lexemes, depth: u8) -> Result<PredOp, Stop>
    ensures { Reads (spec.test_behind (spec.at depth) tokens.old) result tokens.new }
{
    if tokens.at(&[Kind::In]) {
        tokens.pass();
        return Ok(PredOp::OneOf(sum(alloc, tokens, depth)?));
    }
    if tokens.at(&[Kind::Starts]) {
        tokens.pass();
        tokens.expect(&[Kind::With])?;
        return Ok(PredOp::Starts(sum(alloc, tokens, depth)?));
    }
    if tokens.at(&[Kind::Ends]) {
        tokens.pass();
        tokens.expect(&[Kind::With])?;
        return Ok(PredOp::Ends(sum(alloc, tokens, depth)?));
    }
    if tokens.at(&[Kind::Contains]) {
        tokens.pass();
        return Ok(PredOp::Contains(sum(alloc, tokens, depth)?));
    }
    null_test(tokens)
}

#[cycle(parse)]
fn sum(alloc: Global, tokens: &mut Lexemes, depth: u8) -> Result<Expr, Stop>
    ensures { Reads (spec.sum (spec.at depth) tokens.old) result tokens.new }
{
    let first = product(alloc, tokens, depth)?;
    let rest = sum_rest(alloc, tokens, depth);
    summed(alloc, first, rest)
}

#[cycle(parse)]
fn sum_rest(alloc: Global, tokens: &mut Lexemes, depth: u8) -> Result<Items<(SumOp, Expr)>, Stop>
    ensures { Reads (spec.sum_more (spec.at depth) tokens.old) result tokens.new }
{
    let mut rest = Items::new(alloc);
    while tokens.at(&SUM_SIGNS) {
        rest.push(sum_turn(alloc, tokens, depth)?)?;
    }
    Ok(rest)
}

#[cycle(parse)]
fn sum_turn(alloc: Global, tokens: &mut Lexemes, depth: u8) -> Result<(SumOp, Expr), Stop>
    ensures { Reads (spec.sum_turn (spec.at depth) tokens.old) result tokens.new }
{
    let kind = tokens.kind(&SUM_SIGNS)?;
    let operand = product(alloc, tokens, depth)?;
    Ok((sum_sign_of(kind), operand))
}

#[cycle(parse)]
fn product(alloc: Global, tokens: &mut Lexemes, depth: u8) -> Result<Expr, Stop>
    ensures { Reads (spec.product (spec.at depth) tokens.old) result tokens.new }
{
    let first = unary(alloc, tokens, depth)?;
    let rest = product_rest(alloc, tokens, depth);
    multiplied(alloc, first, rest)
}

#[cycle(parse)]
fn product_rest(
    alloc: Global,
    tokens: &mut Lexemes,
    depth: u8,
) -> Result<Items<(ProdOp, Expr)>, Stop>
    ensures { Reads (spec.product_more (spec.at depth) tokens.old) result tokens.new }
{
    let mut rest = Items::new(alloc);
    while tokens.at(&PRODUCT_SIGNS) {
        rest.push(product_turn(alloc, tokens, depth)?)?;
    }
    Ok(rest)
}

#[cycle(parse)]
fn product_turn(alloc: Global, tokens: &mut Lexemes, depth: u8) -> Result<(ProdOp, Expr), Stop>
    ensures { Reads (spec.product_turn (spec.at depth) tokens.old) result tokens.new }
{
    let kind = tokens.kind(&PRODUCT_SIGNS)?;
    let operand = unary(alloc, tokens, depth)?;
    Ok((product_sign_of(kind), operand))
}

#[cycle(parse)]
fn unary(alloc: Global, tokens: &mut Lexemes, depth: u8) -> Result<Expr, Stop>
    ensures { Reads (spec.unary (spec.at depth) tokens.old) result tokens.new }
{
    if tokens.at(&[Kind::Minus]) {
        if depth == 0 {
            return Err(Stop::TooDeep);
        }
        tokens.pass();
        return negative(alloc, tokens, depth - 1);
    }
    if tokens.at(&[Kind::Plus]) {
        if depth == 0 {
            return Err(Stop::TooDeep);
        }
        tokens.pass();
        return positive(alloc, tokens, depth - 1);
    }
    post(alloc, tokens, depth)
}

/// What stands behind a minus.
#[cycle(parse)]
#[tactic(auto, unfolding(crate::specs::ExpressionParsers::behind_minus))]
fn negative(alloc: Global, tokens: &mut Lexemes, inside: u8) -> Result<Expr, Stop>
    ensures { Reads (spec.behind_minus (spec.unary (spec.at inside)) tokens.old) result tokens.new }
{
    if tokens.at(&[Kind::LeastMagnitude]) {
        tokens.pass();
        return Ok(Expr::Lit(Value::Int(i64::MIN)));
    }
    let operand = unary(alloc, tokens, inside)?;
    Ok(Expr::Sign(SumOp::Minus, Boxed::new(alloc, operand)?))
}

/// What stands behind a plus.
#[cycle(parse)]
fn positive(alloc: Global, tokens: &mut Lexemes, inside: u8) -> Result<Expr, Stop>
    ensures { Reads (parsers.map_out (tree.Sign SumOp.Plus) (spec.unary (spec.at inside))
        tokens.old) result tokens.new }
{
    let operand = unary(alloc, tokens, inside)?;
    Ok(Expr::Sign(SumOp::Plus, Boxed::new(alloc, operand)?))
}
