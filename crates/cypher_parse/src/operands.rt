//! Operands: names, literals, calls, lists and cases, and what is asked of them.

ghost use Rattle.std.specs.Prelude.{[], ◌∷◌, ◌++◌};
ghost use Rattle.cypher_parse.specs.ExpressionParsers as spec;
ghost use Rattle.cypher_parse.specs.Expressions.{cased, flat};
ghost use Rattle.cypher_parse.specs.Parsers as parsers;
ghost use Rattle.cypher_parse.specs.Reads.{Reads};
ghost use Rattle.cypher_syntax.specs.declared.tree.expr.Expr.TheVariants as tree;
ghost use Rattle.cypher_syntax.specs.declared.tree.expr.PostOp.TheVariants as step;
ghost use Rattle.cypher_parse.specs.declared.kinds.TheConstants as kinds;

use crate::calls::call;
use crate::chains::stepped;
use crate::kinds::{LITERALS, PLAIN_NAMES, STEP_SIGNS};
use crate::labels::tests;
use crate::lists::{closed, paired, put_first};
use crate::literal::literal;
use crate::operators::disjunction;
use crate::{Kind, Lexemes, Stop};
use cypher_syntax::{Expr, PostOp};
use sqlite_items::{Boxed, Items};
use std::alloc::Global;

#[cycle(parse)]
pub(crate) fn post(alloc: Global, tokens: &mut Lexemes, depth: u8) -> Result<Expr, Stop>
    ensures { Reads (spec.post (spec.at depth) tokens.old) result tokens.new }
{
    let of = atom(alloc, tokens, depth)?;
    let steps = steps(alloc, tokens, depth);
    stepped(alloc, of, steps)
}

#[cycle(parse)]
fn steps(alloc: Global, tokens: &mut Lexemes, depth: u8) -> Result<Items<PostOp>, Stop>
    ensures { Reads (spec.steps (spec.at depth) tokens.old) result tokens.new }
{
    let mut steps = tests(alloc, tokens)?;
    while tokens.at(&STEP_SIGNS) {
        steps.append(turn(alloc, tokens, depth)?)?;
    }
    Ok(steps)
}

/// A step, and perhaps a test of labels behind it.
#[cycle(parse)]
fn turn(alloc: Global, tokens: &mut Lexemes, depth: u8) -> Result<Items<PostOp>, Stop>
    ensures { Reads (spec.turn (spec.at depth) tokens.old) result tokens.new }
{
    let step = step(alloc, tokens, depth)?;
    let tests = tests(alloc, tokens);
    put_first(alloc, step, tests)
}

#[cycle(parse)]
fn step(alloc: Global, tokens: &mut Lexemes, depth: u8) -> Result<PostOp, Stop>
    ensures { Reads (spec.next (spec.at depth) tokens.old) result tokens.new }
{
    if tokens.at(&[Kind::LeftBracket]) {
        if depth == 0 {
            return Err(Stop::TooDeep);
        }
        tokens.pass();
        return element(alloc, tokens, depth - 1);
    }
    tokens.expect(&[Kind::Point])?;
    Ok(PostOp::Prop(tokens.schema_name()?))
}

#[cycle(parse)]
fn atom(alloc: Global, tokens: &mut Lexemes, depth: u8) -> Result<Expr, Stop>
    ensures { Reads (spec.atom (spec.at depth) tokens.old) result tokens.new }
{
    if tokens.at(&[Kind::LeftParen]) {
        if depth == 0 {
            return Err(Stop::TooDeep);
        }
        tokens.pass();
        return parens(alloc, tokens, depth - 1);
    }
    if tokens.at(&[Kind::LeftBracket]) {
        if depth == 0 {
            return Err(Stop::TooDeep);
        }
        tokens.pass();
        return brackets(alloc, tokens, depth - 1);
    }
    if tokens.at(&[Kind::Case]) {
        if depth == 0 {
            return Err(Stop::TooDeep);
        }
        tokens.pass();
        return cases(alloc, tokens, depth - 1);
    }
    if tokens.at(&PLAIN_NAMES) {
        return Ok(Expr::Var(tokens.plain_name()?));
    }
    if tokens.at(&LITERALS) {
        return literal(tokens);
    }
    call(alloc, tokens, depth)
}

/// What stands behind the bracket of a step.
#[cycle(parse)]
fn element(alloc: Global, tokens: &mut Lexemes, inside: u8) -> Result<PostOp, Stop>
    ensures { Reads (parsers.map_out step.At
        (parsers.before (spec.expression inside) (Kind.RightBracket ∷ [])) tokens.old)
        result tokens.new }
{
    let at = disjunction(alloc, tokens, inside)?;
    Ok(PostOp::At(closed(tokens, at, &[Kind::RightBracket])?))
}

/// What stands behind the bracket of a list.
#[cycle(parse)]
fn brackets(alloc: Global, tokens: &mut Lexemes, inside: u8) -> Result<Expr, Stop>
    ensures { Reads (parsers.map_out tree.List (spec.elements (spec.expression inside)) tokens.old)
        result tokens.new }
{
    Ok(Expr::List(elements(alloc, tokens, inside)?))
}

/// What stands behind an opening parenthesis.
#[cycle(parse)]
pub(crate) fn parens(alloc: Global, tokens: &mut Lexemes, inside: u8) -> Result<Expr, Stop>
    ensures { Reads (parsers.before (spec.expression inside) (Kind.RightParen ∷ []) tokens.old)
        result tokens.new }
{
    let inner = disjunction(alloc, tokens, inside)?;
    closed(tokens, inner, &[Kind::RightParen])
}

/// Expressions between commas, or none, and the closing bracket.
#[cycle(parse)]
fn elements(alloc: Global, tokens: &mut Lexemes, inside: u8) -> Result<Items<Expr>, Stop>
    ensures { Reads (spec.elements (spec.expression inside) tokens.old) result tokens.new }
{
    if tokens.at(&[Kind::RightBracket]) {
        tokens.pass();
        return Ok(Items::new(alloc));
    }
    let items = list(alloc, tokens, inside)?;
    closed(tokens, items, &[Kind::RightBracket])
}

/// Expressions between commas.
#[cycle(parse)]
pub(crate) fn list(alloc: Global, tokens: &mut Lexemes, depth: u8) -> Result<Items<Expr>, Stop>
    ensures { Reads (spec.list (spec.expression depth) tokens.old) result tokens.new }
{
    let first = disjunction(alloc, tokens, depth)?;
    let rest = list_rest(alloc, tokens, depth);
    put_first(alloc, first, rest)
}

#[cycle(parse)]
fn list_rest(alloc: Global, tokens: &mut Lexemes, depth: u8) -> Result<Items<Expr>, Stop>
    ensures { Reads (spec.list_more (spec.expression depth) tokens.old) result tokens.new }
{
    let mut rest = Items::new(alloc);
    while tokens.at(&[Kind::Comma]) {
        tokens.pass();
        rest.push(disjunction(alloc, tokens, depth)?)?;
    }
    Ok(rest)
}

/// What stands behind CASE.
#[cycle(parse)]
#[tactic(auto, unfolding(crate::specs::ExpressionParsers::cases))]
fn cases(alloc: Global, tokens: &mut Lexemes, inside: u8) -> Result<Expr, Stop>
    ensures { Reads (parsers.map_out cased (spec.cases (spec.expression inside)) tokens.old)
        result tokens.new }
{
    let of = case_operand(alloc, tokens, inside)?;
    let whens = whens(alloc, tokens, inside)?;
    let other = case_otherwise(alloc, tokens, inside)?;
    tokens.expect(&[Kind::End])?;
    Ok(Expr::Case { of, whens, other })
}

#[cycle(parse)]
fn case_operand(
    alloc: Global,
    tokens: &mut Lexemes,
    inside: u8,
) -> Result<Option<Boxed<Expr>>, Stop>
    ensures { Reads (spec.case_operand (spec.expression inside) tokens.old) result tokens.new }
{
    if tokens.at(&[Kind::When]) {
        return Ok(None);
    }
    let operand = disjunction(alloc, tokens, inside)?;
    Ok(Some(Boxed::new(alloc, operand)?))
}

#[cycle(parse)]
#[tactic(auto, unfolding(crate::specs::ExpressionParsers::case_otherwise))]
fn case_otherwise(
    alloc: Global,
    tokens: &mut Lexemes,
    inside: u8,
) -> Result<Option<Boxed<Expr>>, Stop>
    ensures { Reads (spec.case_otherwise (spec.expression inside) tokens.old) result tokens.new }
{
    if !tokens.at(&[Kind::Else]) {
        return Ok(None);
    }
    tokens.pass();
    let other = disjunction(alloc, tokens, inside)?;
    Ok(Some(Boxed::new(alloc, other)?))
}

#[cycle(parse)]
fn whens(alloc: Global, tokens: &mut Lexemes, inside: u8) -> Result<Items<(Expr, Expr)>, Stop>
    ensures { Reads (spec.whens (spec.expression inside) tokens.old) result tokens.new }
{
    let first = when(alloc, tokens, inside)?;
    let rest = whens_rest(alloc, tokens, inside);
    put_first(alloc, first, rest)
}

#[cycle(parse)]
fn whens_rest(alloc: Global, tokens: &mut Lexemes, inside: u8) -> Result<Items<(Expr, Expr)>, Stop>
    ensures { Reads (spec.whens_more (spec.expression inside) tokens.old) result tokens.new }
{
    let mut rest = Items::new(alloc);
    while tokens.at(&[Kind::When]) {
        rest.push(when(alloc, tokens, inside)?)?;
    }
    Ok(rest)
}

#[cycle(parse)]
fn when(alloc: Global, tokens: &mut Lexemes, inside: u8) -> Result<(Expr, Expr), Stop>
    ensures { Reads (spec.when (spec.expression inside) tokens.old) result tokens.new }
{
    tokens.expect(&[Kind::When])?;
    let condition = disjunction(alloc, tokens, inside)?;
    let value = then(alloc, tokens, inside);
    paired(condition, value)
}

/// THEN and its value.
#[cycle(parse)]
fn then(alloc: Global, tokens: &mut Lexemes, inside: u8) -> Result<Expr, Stop>
    ensures { Reads (parsers.after (Kind.Then ∷ []) (spec.expression inside) tokens.old)
        result tokens.new }
{
    tokens.expect(&[Kind::Then])?;
    disjunction(alloc, tokens, inside)
}
