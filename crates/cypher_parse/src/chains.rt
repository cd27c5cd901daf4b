//! Operands and what was read behind the first of them, put together.

ghost use Rattle.cypher_parse.specs.Expressions.{joined, chained};
ghost use Rattle.cypher_parse.specs.Reads.{Made};
ghost use Rattle.cypher_syntax.specs.declared.tree.expr.Expr.TheVariants as tree;

use crate::Stop;
use crate::lists::in_front;
use cypher_syntax::{CmpOp, Expr, PostOp, PredOp, ProdOp, SumOp};
use sqlite_items::{Boxed, Items};
use std::alloc::Global;

/// Operands between OR.
pub(crate) fn alternatives(
    alloc: Global,
    first: Expr,
    rest: Result<Items<Expr>, Stop>,
) -> Result<Expr, Stop>
    ensures { Made (λ items. joined tree.Or (first, items)) rest result }
{
    match rest {
        Ok(rest) => {
            if rest.is_empty() {
                return Ok(first);
            }
            Ok(Expr::Or(in_front(alloc, first, rest)?))
        }
        Err(stop) => {
            drop(first);
            Err(stop)
        }
    }
}

/// Operands between XOR.
pub(crate) fn exclusives(
    alloc: Global,
    first: Expr,
    rest: Result<Items<Expr>, Stop>,
) -> Result<Expr, Stop>
    ensures { Made (λ items. joined tree.Xor (first, items)) rest result }
{
    match rest {
        Ok(rest) => {
            if rest.is_empty() {
                return Ok(first);
            }
            Ok(Expr::Xor(in_front(alloc, first, rest)?))
        }
        Err(stop) => {
            drop(first);
            Err(stop)
        }
    }
}

/// Operands between AND.
pub(crate) fn conjuncts(
    alloc: Global,
    first: Expr,
    rest: Result<Items<Expr>, Stop>,
) -> Result<Expr, Stop>
    ensures { Made (λ items. joined tree.And (first, items)) rest result }
{
    match rest {
        Ok(rest) => {
            if rest.is_empty() {
                return Ok(first);
            }
            Ok(Expr::And(in_front(alloc, first, rest)?))
        }
        Err(stop) => {
            drop(first);
            Err(stop)
        }
    }
}

/// An operand and its comparisons.
pub(crate) fn compared(
    alloc: Global,
    first: Expr,
    rest: Result<Items<(CmpOp, Expr)>, Stop>,
) -> Result<Expr, Stop>
    ensures { Made (λ items. chained tree.Cmp (first, items)) rest result }
{
    match rest {
        Ok(rest) => {
            if rest.is_empty() {
                return Ok(first);
            }
            Ok(Expr::Cmp(Boxed::new(alloc, first)?, rest))
        }
        Err(stop) => {
            drop(first);
            Err(stop)
        }
    }
}

/// An operand and its tests.
pub(crate) fn tested(
    alloc: Global,
    first: Expr,
    rest: Result<Items<PredOp>, Stop>,
) -> Result<Expr, Stop>
    ensures { Made (λ items. chained tree.Pred (first, items)) rest result }
{
    match rest {
        Ok(rest) => {
            if rest.is_empty() {
                return Ok(first);
            }
            Ok(Expr::Pred(Boxed::new(alloc, first)?, rest))
        }
        Err(stop) => {
            drop(first);
            Err(stop)
        }
    }
}

/// Operands between signs.
pub(crate) fn summed(
    alloc: Global,
    first: Expr,
    rest: Result<Items<(SumOp, Expr)>, Stop>,
) -> Result<Expr, Stop>
    ensures { Made (λ items. chained tree.Sum (first, items)) rest result }
{
    match rest {
        Ok(rest) => {
            if rest.is_empty() {
                return Ok(first);
            }
            Ok(Expr::Sum(Boxed::new(alloc, first)?, rest))
        }
        Err(stop) => {
            drop(first);
            Err(stop)
        }
    }
}

/// Operands between signs of products.
pub(crate) fn multiplied(
    alloc: Global,
    first: Expr,
    rest: Result<Items<(ProdOp, Expr)>, Stop>,
) -> Result<Expr, Stop>
    ensures { Made (λ items. chained tree.Prod (first, items)) rest result }
{
    match rest {
        Ok(rest) => {
            if rest.is_empty() {
                return Ok(first);
            }
            Ok(Expr::Prod(Boxed::new(alloc, first)?, rest))
        }
        Err(stop) => {
            drop(first);
            Err(stop)
        }
    }
}

/// An operand and its steps.
pub(crate) fn stepped(
    alloc: Global,
    of: Expr,
    steps: Result<Items<PostOp>, Stop>,
) -> Result<Expr, Stop>
    ensures { Made (λ items. chained tree.Post (of, items)) steps result }
{
    match steps {
        Ok(steps) => {
            if steps.is_empty() {
                return Ok(of);
            }
            Ok(Expr::Post(Boxed::new(alloc, of)?, steps))
        }
        Err(stop) => {
            drop(of);
            Err(stop)
        }
    }
}
