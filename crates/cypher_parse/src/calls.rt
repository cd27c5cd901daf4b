//! Calls of functions. A function's word that no parenthesis follows is a name.

ghost use Rattle.std.specs.Prelude.{[], ◌∷◌};
ghost use Rattle.cypher_parse.specs.ExpressionParsers as spec;
ghost use Rattle.cypher_parse.specs.Parsers as parsers;
ghost use Rattle.cypher_parse.specs.Expressions as expressions;
ghost use Rattle.cypher_parse.specs.Reads.{Reads};
ghost use Rattle.cypher_parse.specs.Words as words;

use crate::kinds::{AGGREGATES, SINGLE_FUNCTIONS};
use crate::meaning::{aggregate_for, function_for};
use crate::operands::{list, parens};
use crate::operators::disjunction;
use crate::{Kind, Lexemes, Stop};
use cypher_syntax::{AggFun, Expr, Fun};
use sqlite_items::{Boxed, Items};
use std::alloc::Global;

#[cycle(parse)]
pub(crate) fn call(alloc: Global, tokens: &mut Lexemes, depth: u8) -> Result<Expr, Stop>
    ensures { Reads (spec.call (spec.at depth) tokens.old) result tokens.new }
{
    if tokens.at(&SINGLE_FUNCTIONS) {
        return single_call(alloc, tokens, depth);
    }
    if tokens.at(&[Kind::RangeWord]) {
        return range_call(alloc, tokens, depth);
    }
    if tokens.at(&[Kind::CoalesceWord]) {
        return coalesce_call(alloc, tokens, depth);
    }
    if tokens.at(&[Kind::CountWord]) {
        return count_call(alloc, tokens, depth);
    }
    aggregate_call(alloc, tokens, depth)
}

#[cycle(parse)]
#[tactic(auto, unfolding(crate::specs::ExpressionParsers::single_call))]
fn single_call(alloc: Global, tokens: &mut Lexemes, depth: u8) -> Result<Expr, Stop>
    ensures { Reads (spec.single_call (spec.at depth) tokens.old) result tokens.new }
{
    let (kind, name) = tokens.function(&SINGLE_FUNCTIONS)?;
    if !tokens.at(&[Kind::LeftParen]) {
        return Ok(Expr::Var(name));
    }
    if depth == 0 {
        return Err(Stop::TooDeep);
    }
    tokens.pass();
    single_argument(alloc, tokens, depth - 1, kind)
}

#[cycle(parse)]
fn single_argument(
    alloc: Global,
    tokens: &mut Lexemes,
    inside: u8,
    kind: Kind,
) -> Result<Expr, Stop>
    ensures { Reads (parsers.map_out (λ x. Expr.Call (words.function_for kind) (x ∷ []))
        (parsers.before (spec.expression inside) (Kind.RightParen ∷ [])) tokens.old)
        result tokens.new }
{
    let argument = parens(alloc, tokens, inside)?;
    let mut arguments = Items::new(alloc);
    arguments.push(argument)?;
    Ok(Expr::Call(function_for(kind), arguments))
}

#[cycle(parse)]
#[tactic(auto, unfolding(crate::specs::ExpressionParsers::range_call))]
fn range_call(alloc: Global, tokens: &mut Lexemes, depth: u8) -> Result<Expr, Stop>
    ensures { Reads (spec.range_call (spec.at depth) tokens.old) result tokens.new }
{
    let (_, name) = tokens.function(&[Kind::RangeWord])?;
    if !tokens.at(&[Kind::LeftParen]) {
        return Ok(Expr::Var(name));
    }
    if depth == 0 {
        return Err(Stop::TooDeep);
    }
    tokens.pass();
    range_bounds(alloc, tokens, depth - 1)
}

/// Two expressions and the closing parenthesis.
#[cycle(parse)]
#[tactic(auto, unfolding(crate::specs::ExpressionParsers::range_bounds))]
fn range_bounds(alloc: Global, tokens: &mut Lexemes, inside: u8) -> Result<Expr, Stop>
    ensures { Reads (parsers.map_out (λ p. Expr.Call Fun.Range (p.0 ∷ p.1 ∷ []))
        (parsers.before (spec.range_bounds (spec.expression inside)) (Kind.RightParen ∷ []))
        tokens.old) result tokens.new }
{
    let mut bounds = Items::new(alloc);
    bounds.push(disjunction(alloc, tokens, inside)?)?;
    tokens.expect(&[Kind::Comma])?;
    bounds.push(parens(alloc, tokens, inside)?)?;
    Ok(Expr::Call(Fun::Range, bounds))
}

#[cycle(parse)]
#[tactic(auto, unfolding(crate::specs::ExpressionParsers::coalesce_call))]
fn coalesce_call(alloc: Global, tokens: &mut Lexemes, depth: u8) -> Result<Expr, Stop>
    ensures { Reads (spec.coalesce_call (spec.at depth) tokens.old) result tokens.new }
{
    let (_, name) = tokens.function(&[Kind::CoalesceWord])?;
    if !tokens.at(&[Kind::LeftParen]) {
        return Ok(Expr::Var(name));
    }
    if depth == 0 {
        return Err(Stop::TooDeep);
    }
    tokens.pass();
    coalesced(alloc, tokens, depth - 1)
}

#[cycle(parse)]
fn coalesced(alloc: Global, tokens: &mut Lexemes, inside: u8) -> Result<Expr, Stop>
    ensures { Reads (parsers.map_out (λ xs. Expr.Call Fun.Coalesce xs)
        (parsers.before (spec.list (spec.expression inside)) (Kind.RightParen ∷ [])) tokens.old)
        result tokens.new }
{
    let arguments = list(alloc, tokens, inside)?;
    tokens.expect(&[Kind::RightParen])?;
    Ok(Expr::Call(Fun::Coalesce, arguments))
}

#[cycle(parse)]
#[tactic(auto, unfolding(crate::specs::ExpressionParsers::count_call))]
fn count_call(alloc: Global, tokens: &mut Lexemes, depth: u8) -> Result<Expr, Stop>
    ensures { Reads (spec.count_call (spec.at depth) tokens.old) result tokens.new }
{
    let (_, name) = tokens.function(&[Kind::CountWord])?;
    if !tokens.at(&[Kind::LeftParen]) {
        return Ok(Expr::Var(name));
    }
    if depth == 0 {
        return Err(Stop::TooDeep);
    }
    tokens.pass();
    counted(alloc, tokens, depth - 1)
}

#[cycle(parse)]
#[tactic(auto, unfolding(crate::specs::ExpressionParsers::counted_rows))]
fn counted(alloc: Global, tokens: &mut Lexemes, inside: u8) -> Result<Expr, Stop>
    ensures { Reads (parsers.map_out expressions.counted
        (parsers.before (spec.counted_rows (spec.expression inside)) (Kind.RightParen ∷ []))
        tokens.old) result tokens.new }
{
    if tokens.at(&[Kind::Star]) {
        tokens.pass();
        tokens.expect(&[Kind::RightParen])?;
        return Ok(Expr::CountRows);
    }
    let (distinct, of) = operand(alloc, tokens, inside)?;
    Ok(Expr::Agg {
        fun: AggFun::Count,
        distinct,
        of,
    })
}

#[cycle(parse)]
#[tactic(auto, unfolding(crate::specs::ExpressionParsers::aggregate_call))]
fn aggregate_call(alloc: Global, tokens: &mut Lexemes, depth: u8) -> Result<Expr, Stop>
    ensures { Reads (spec.aggregate_call (spec.at depth) tokens.old) result tokens.new }
{
    let (kind, name) = tokens.function(&AGGREGATES)?;
    if !tokens.at(&[Kind::LeftParen]) {
        return Ok(Expr::Var(name));
    }
    if depth == 0 {
        return Err(Stop::TooDeep);
    }
    tokens.pass();
    aggregated(alloc, tokens, depth - 1, kind)
}

#[cycle(parse)]
fn aggregated(alloc: Global, tokens: &mut Lexemes, inside: u8, kind: Kind) -> Result<Expr, Stop>
    ensures { Reads (parsers.map_out (λ p. Expr.Agg (words.aggregate_for kind) p.0 p.1)
        (parsers.before (spec.operand (spec.expression inside)) (Kind.RightParen ∷ []))
        tokens.old) result tokens.new }
{
    let (distinct, of) = operand(alloc, tokens, inside)?;
    Ok(Expr::Agg {
        fun: aggregate_for(kind),
        distinct,
        of,
    })
}

/// DISTINCT or nothing, an expression and the closing parenthesis.
#[cycle(parse)]
#[tactic(auto, unfolding(crate::specs::ExpressionParsers::operand))]
fn operand(alloc: Global, tokens: &mut Lexemes, inside: u8) -> Result<(bool, Boxed<Expr>), Stop>
    ensures { Reads (parsers.before (spec.operand (spec.expression inside)) (Kind.RightParen ∷ [])
        tokens.old) result tokens.new }
{
    let distinct = tokens.skip(Kind::Distinct);
    let of = parens(alloc, tokens, inside)?;
    Ok((distinct, Boxed::new(alloc, of)?))
}
