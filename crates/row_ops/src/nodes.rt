//! Nodes of expressions, made of their operands.
ghost use Rattle.std.specs.Prelude.{◌≡◌, Some, IfOk};
ghost use Rattle.cypher_syntax.specs.declared.tree.expr.Expr.TheVariants as node;

use cypher_syntax::{CmpOp, Expr, PostOp, PredOp, ProdOp, SumOp};
use graph_value::NoMemory;
use sqlite_items::{Boxed, Items};
use std::alloc::Global;

pub(crate) fn negated(alloc: Global, operand: Expr) -> Result<Expr, NoMemory>
    ensures { IfOk result (λ e. e ≡ node.Not operand) }
{
    Ok(Expr::Not(Boxed::new(alloc, operand)?))
}

pub(crate) fn signed(alloc: Global, op: SumOp, operand: Expr) -> Result<Expr, NoMemory>
    ensures { IfOk result (λ e. e ≡ node.Sign op operand) }
{
    Ok(Expr::Sign(op, Boxed::new(alloc, operand)?))
}

pub(crate) fn compared(
    alloc: Global,
    first: Expr,
    rest: Items<(CmpOp, Expr)>,
) -> Result<Expr, NoMemory>
    ensures { IfOk result (λ e. e ≡ node.Cmp first rest) }
{
    Ok(Expr::Cmp(Boxed::new(alloc, first)?, rest))
}

pub(crate) fn tested(alloc: Global, first: Expr, tests: Items<PredOp>) -> Result<Expr, NoMemory>
    ensures { IfOk result (λ e. e ≡ node.Pred first tests) }
{
    Ok(Expr::Pred(Boxed::new(alloc, first)?, tests))
}

pub(crate) fn added(
    alloc: Global,
    first: Expr,
    rest: Items<(SumOp, Expr)>,
) -> Result<Expr, NoMemory>
    ensures { IfOk result (λ e. e ≡ node.Sum first rest) }
{
    Ok(Expr::Sum(Boxed::new(alloc, first)?, rest))
}

pub(crate) fn multiplied(
    alloc: Global,
    first: Expr,
    rest: Items<(ProdOp, Expr)>,
) -> Result<Expr, NoMemory>
    ensures { IfOk result (λ e. e ≡ node.Prod first rest) }
{
    Ok(Expr::Prod(Boxed::new(alloc, first)?, rest))
}

pub(crate) fn asking(alloc: Global, first: Expr, asked: Items<PostOp>) -> Result<Expr, NoMemory>
    ensures { IfOk result (λ e. e ≡ node.Post first asked) }
{
    Ok(Expr::Post(Boxed::new(alloc, first)?, asked))
}

/// An operand that may be left out.
pub(crate) fn present(alloc: Global, operand: Expr) -> Result<Option<Boxed<Expr>>, NoMemory>
    ensures { IfOk result (λ r. r ≡ Some operand) }
{
    Ok(Some(Boxed::new(alloc, operand)?))
}
