//! Items with aggregates, made ready: each aggregate taken out, with the number of its place as a name in its stead.
ghost use Rattle.std.specs.Prelude.{◌≡◌, ◌++◌, ◌∷◌, [], map, length, IfOk, OnOk};
ghost use Rattle.cypher_syntax.specs.declared.tree.expr.Expr.TheVariants as node;
ghost use Rattle.row_ops.specs.Compiling as spec;

use crate::columns::place_name;
use crate::nodes::{added, asking, compared, multiplied, negated, present, signed, tested};
use cypher_syntax::{AggFun, CmpOp, Expr, PostOp, PredOp, ProdOp, SumOp};
use graph_value::{Name, NoMemory, Value};
use sqlite_items::{Boxed, Items};
use std::alloc::Global;

/// An aggregate. `count(*)` counts a value that stands in every row.
#[derive(Drop)]
pub struct Aggregate {
    pub fun: AggFun,
    pub distinct: bool,
    /// What is evaluated in each row.
    pub of: Expr,
}

/// What `count(*)` counts.
fn every_row() -> Aggregate
    ensures { result ≡ spec.every_row }
{
    Aggregate {
        fun: AggFun::Count,
        distinct: false,
        of: Expr::Lit(Value::Bool(true)),
    }
}

/// Takes an aggregate out.
fn taken(
    alloc: Global,
    aggregate: Aggregate,
    found: &mut Items<Aggregate>,
) -> Result<Expr, NoMemory>
    ensures filled { IfOk result (λ e. e ≡ spec.number (length found.old)) }
    ensures found { OnOk result (found.new ≡ found.old ++ aggregate ∷ []) }
{
    let name = place_name(alloc, found.len())?;
    found.push(aggregate)?;
    Ok(Expr::Var(name))
}

/// Takes an aggregate out of which the argument is ready.
fn taken_of(
    alloc: Global,
    fun: AggFun,
    distinct: bool,
    of: Expr,
    found: &mut Items<Aggregate>,
) -> Result<Expr, NoMemory>
    ensures filled { IfOk result (λ e. e ≡ spec.number (length found.old)) }
    ensures found { OnOk result (found.new
        ≡ found.old ++ (record { fun = fun; distinct = distinct; of = of }) ∷ []) }
{
    let aggregate = Aggregate { fun, distinct, of };
    taken(alloc, aggregate, found)
}

/// The expression with each aggregate taken out, in reading order. An aggregate in another one, which no checked query has,
/// is one of these numbers too.
#[cycle(filled)]
pub(crate) fn filled(
    alloc: Global,
    expr: &Expr,
    found: &mut Items<Aggregate>,
) -> Result<Expr, NoMemory>
    ensures filled { IfOk result (λ e. e ≡ (spec.part_of expr.now).filled (length found.old)) }
    ensures found { OnOk result (found.new ≡ found.old ++ (spec.part_of expr.now).aggregates) }
{
    match expr {
        Expr::Lit(value) => Ok(Expr::Lit(value.copy(alloc)?)),
        Expr::Var(name) => Ok(Expr::Var(name.copy()?)),
        Expr::List(items) => Ok(Expr::List(all_filled(alloc, items.as_slice(), found)?)),
        Expr::Call(fun, items) => {
            Ok(Expr::Call(*fun, all_filled(alloc, items.as_slice(), found)?))
        }
        Expr::CountRows => taken(alloc, every_row(), found),
        Expr::Agg { fun, distinct, of } => {
            let of = alone(alloc, of.get())?;
            taken_of(alloc, *fun, *distinct, of, found)
        }
        Expr::Case { of, whens, other } => {
            let of = optional_filled(alloc, of, found)?;
            let (of, whens) = whens_behind(alloc, whens.as_slice(), of, found)?;
            case_filled(alloc, other, of, whens, found)
        }
        Expr::Or(items) => Ok(Expr::Or(all_filled(alloc, items.as_slice(), found)?)),
        Expr::Xor(items) => Ok(Expr::Xor(all_filled(alloc, items.as_slice(), found)?)),
        Expr::And(items) => Ok(Expr::And(all_filled(alloc, items.as_slice(), found)?)),
        Expr::Not(operand) => {
            let operand = filled(alloc, operand.get(), found)?;
            negated(alloc, operand)
        }
        Expr::Cmp(first, rest) => {
            let first = filled(alloc, first.get(), found)?;
            compared_behind(alloc, rest.as_slice(), first, found)
        }
        Expr::Pred(first, tests) => {
            let first = filled(alloc, first.get(), found)?;
            tests_behind(alloc, tests.as_slice(), first, found)
        }
        Expr::Sum(first, rest) => {
            let first = filled(alloc, first.get(), found)?;
            added_behind(alloc, rest.as_slice(), first, found)
        }
        Expr::Prod(first, rest) => {
            let first = filled(alloc, first.get(), found)?;
            multiplied_behind(alloc, rest.as_slice(), first, found)
        }
        Expr::Sign(op, operand) => {
            let operand = filled(alloc, operand.get(), found)?;
            signed(alloc, *op, operand)
        }
        Expr::Post(first, asked) => {
            let first = filled(alloc, first.get(), found)?;
            asked_behind(alloc, asked.as_slice(), first, found)
        }
    }
}

/// The argument of an aggregate.
#[cycle(filled)]
fn alone(alloc: Global, expr: &Expr) -> Result<Expr, NoMemory>
    ensures { IfOk result (λ e. e ≡ (spec.part_of expr.now).filled 0) }
{
    let mut found = Items::new(alloc);
    filled(alloc, expr, &mut found)
}

#[cycle(filled)]
fn optional_filled(
    alloc: Global,
    expr: &Option<Boxed<Expr>>,
    found: &mut Items<Aggregate>,
) -> Result<Option<Boxed<Expr>>, NoMemory>
    ensures filled { IfOk result (λ r. r
        ≡ (spec.optional_part expr.now).filled (length found.old)) }
    ensures found { OnOk result (found.new
        ≡ found.old ++ (spec.optional_part expr.now).aggregates) }
{
    match expr {
        Some(expr) => {
            let operand = filled(alloc, expr.get(), found)?;
            present(alloc, operand)
        }
        None => Ok(None),
    }
}

#[cycle(filled)]
fn all_filled(
    alloc: Global,
    items: &[Expr],
    found: &mut Items<Aggregate>,
) -> Result<Items<Expr>, NoMemory>
    ensures filled { IfOk result (λ r. r ≡ (spec.all_parts items.now).filled (length found.old)) }
    ensures found { OnOk result (found.new ≡ found.old ++ (spec.all_parts items.now).aggregates) }
{
    let mut done = Items::new(alloc);
    for item in items {
        done.push(filled(alloc, item, found)?)?;
    }
    Ok(done)
}

#[cycle(filled)]
fn whens_filled(
    alloc: Global,
    whens: &[(Expr, Expr)],
    found: &mut Items<Aggregate>,
) -> Result<Items<(Expr, Expr)>, NoMemory>
    ensures filled { IfOk result (λ r. r
        ≡ (spec.all (map spec.pair_part whens.now)).filled (length found.old)) }
    ensures found { OnOk result (found.new
        ≡ found.old ++ (spec.all (map spec.pair_part whens.now)).aggregates) }
{
    let mut done = Items::new(alloc);
    for (condition, then) in whens {
        let condition = filled(alloc, condition, found)?;
        let then = filled(alloc, then, found)?;
        done.push((condition, then))?;
    }
    Ok(done)
}

#[cycle(filled)]
fn compared_filled(
    alloc: Global,
    rest: &[(CmpOp, Expr)],
    found: &mut Items<Aggregate>,
) -> Result<Items<(CmpOp, Expr)>, NoMemory>
    ensures filled { IfOk result (λ r. r
        ≡ (spec.all (map spec.beside_part rest.now)).filled (length found.old)) }
    ensures found { OnOk result (found.new
        ≡ found.old ++ (spec.all (map spec.beside_part rest.now)).aggregates) }
{
    let mut done = Items::new(alloc);
    for (op, operand) in rest {
        done.push((*op, filled(alloc, operand, found)?))?;
    }
    Ok(done)
}

#[cycle(filled)]
fn added_filled(
    alloc: Global,
    rest: &[(SumOp, Expr)],
    found: &mut Items<Aggregate>,
) -> Result<Items<(SumOp, Expr)>, NoMemory>
    ensures filled { IfOk result (λ r. r
        ≡ (spec.all (map spec.beside_part rest.now)).filled (length found.old)) }
    ensures found { OnOk result (found.new
        ≡ found.old ++ (spec.all (map spec.beside_part rest.now)).aggregates) }
{
    let mut done = Items::new(alloc);
    for (op, operand) in rest {
        done.push((*op, filled(alloc, operand, found)?))?;
    }
    Ok(done)
}

#[cycle(filled)]
fn multiplied_filled(
    alloc: Global,
    rest: &[(ProdOp, Expr)],
    found: &mut Items<Aggregate>,
) -> Result<Items<(ProdOp, Expr)>, NoMemory>
    ensures filled { IfOk result (λ r. r
        ≡ (spec.all (map spec.beside_part rest.now)).filled (length found.old)) }
    ensures found { OnOk result (found.new
        ≡ found.old ++ (spec.all (map spec.beside_part rest.now)).aggregates) }
{
    let mut done = Items::new(alloc);
    for (op, operand) in rest {
        done.push((*op, filled(alloc, operand, found)?))?;
    }
    Ok(done)
}

#[cycle(filled)]
fn test_filled(
    alloc: Global,
    test: &PredOp,
    found: &mut Items<Aggregate>,
) -> Result<PredOp, NoMemory>
    ensures filled { IfOk result (λ r. r ≡ (spec.pred_part test.now).filled (length found.old)) }
    ensures found { OnOk result (found.new ≡ found.old ++ (spec.pred_part test.now).aggregates) }
{
    match test {
        PredOp::OneOf(list) => Ok(PredOp::OneOf(filled(alloc, list, found)?)),
        PredOp::Starts(part) => Ok(PredOp::Starts(filled(alloc, part, found)?)),
        PredOp::Ends(part) => Ok(PredOp::Ends(filled(alloc, part, found)?)),
        PredOp::Contains(part) => Ok(PredOp::Contains(filled(alloc, part, found)?)),
        PredOp::IsNull => Ok(PredOp::IsNull),
        PredOp::IsNotNull => Ok(PredOp::IsNotNull),
    }
}

#[cycle(filled)]
fn tests_filled(
    alloc: Global,
    tests: &[PredOp],
    found: &mut Items<Aggregate>,
) -> Result<Items<PredOp>, NoMemory>
    ensures filled { IfOk result (λ r. r
        ≡ (spec.all (map spec.pred_part tests.now)).filled (length found.old)) }
    ensures found { OnOk result (found.new
        ≡ found.old ++ (spec.all (map spec.pred_part tests.now)).aggregates) }
{
    let mut done = Items::new(alloc);
    for test in tests {
        done.push(test_filled(alloc, test, found)?)?;
    }
    Ok(done)
}

#[cycle(filled)]
fn post_filled(alloc: Global, op: &PostOp, found: &mut Items<Aggregate>) -> Result<PostOp, NoMemory>
    ensures filled { IfOk result (λ r. r ≡ (spec.post_part op.now).filled (length found.old)) }
    ensures found { OnOk result (found.new ≡ found.old ++ (spec.post_part op.now).aggregates) }
{
    match op {
        PostOp::Prop(name) => Ok(PostOp::Prop(name.copy()?)),
        PostOp::At(at) => Ok(PostOp::At(filled(alloc, at, found)?)),
        PostOp::Labels(names) => Ok(PostOp::Labels(names_copy(alloc, names.as_slice())?)),
    }
}

#[cycle(filled)]
fn asked_filled(
    alloc: Global,
    asked: &[PostOp],
    found: &mut Items<Aggregate>,
) -> Result<Items<PostOp>, NoMemory>
    ensures filled { IfOk result (λ r. r
        ≡ (spec.all (map spec.post_part asked.now)).filled (length found.old)) }
    ensures found { OnOk result (found.new
        ≡ found.old ++ (spec.all (map spec.post_part asked.now)).aggregates) }
{
    let mut done = Items::new(alloc);
    for op in asked {
        done.push(post_filled(alloc, op, found)?)?;
    }
    Ok(done)
}

#[cycle(filled)]
fn compared_behind(
    alloc: Global,
    rest: &[(CmpOp, Expr)],
    first: Expr,
    found: &mut Items<Aggregate>,
) -> Result<Expr, NoMemory>
    ensures filled { IfOk result (λ e. e ≡ node.Cmp first
        ((spec.all (map spec.beside_part rest.now)).filled (length found.old))) }
    ensures found { OnOk result (found.new
        ≡ found.old ++ (spec.all (map spec.beside_part rest.now)).aggregates) }
{
    let rest = compared_filled(alloc, rest, found)?;
    compared(alloc, first, rest)
}

#[cycle(filled)]
fn tests_behind(
    alloc: Global,
    tests: &[PredOp],
    first: Expr,
    found: &mut Items<Aggregate>,
) -> Result<Expr, NoMemory>
    ensures filled { IfOk result (λ e. e ≡ node.Pred first
        ((spec.all (map spec.pred_part tests.now)).filled (length found.old))) }
    ensures found { OnOk result (found.new
        ≡ found.old ++ (spec.all (map spec.pred_part tests.now)).aggregates) }
{
    let tests = tests_filled(alloc, tests, found)?;
    tested(alloc, first, tests)
}

#[cycle(filled)]
fn added_behind(
    alloc: Global,
    rest: &[(SumOp, Expr)],
    first: Expr,
    found: &mut Items<Aggregate>,
) -> Result<Expr, NoMemory>
    ensures filled { IfOk result (λ e. e ≡ node.Sum first
        ((spec.all (map spec.beside_part rest.now)).filled (length found.old))) }
    ensures found { OnOk result (found.new
        ≡ found.old ++ (spec.all (map spec.beside_part rest.now)).aggregates) }
{
    let rest = added_filled(alloc, rest, found)?;
    added(alloc, first, rest)
}

#[cycle(filled)]
fn multiplied_behind(
    alloc: Global,
    rest: &[(ProdOp, Expr)],
    first: Expr,
    found: &mut Items<Aggregate>,
) -> Result<Expr, NoMemory>
    ensures filled { IfOk result (λ e. e ≡ node.Prod first
        ((spec.all (map spec.beside_part rest.now)).filled (length found.old))) }
    ensures found { OnOk result (found.new
        ≡ found.old ++ (spec.all (map spec.beside_part rest.now)).aggregates) }
{
    let rest = multiplied_filled(alloc, rest, found)?;
    multiplied(alloc, first, rest)
}

#[cycle(filled)]
fn asked_behind(
    alloc: Global,
    asked: &[PostOp],
    first: Expr,
    found: &mut Items<Aggregate>,
) -> Result<Expr, NoMemory>
    ensures filled { IfOk result (λ e. e ≡ node.Post first
        ((spec.all (map spec.post_part asked.now)).filled (length found.old))) }
    ensures found { OnOk result (found.new
        ≡ found.old ++ (spec.all (map spec.post_part asked.now)).aggregates) }
{
    let asked = asked_filled(alloc, asked, found)?;
    asking(alloc, first, asked)
}

/// What stands in front of the conditions of CASE, and the conditions.
#[cycle(filled)]
fn whens_behind(
    alloc: Global,
    whens: &[(Expr, Expr)],
    of: Option<Boxed<Expr>>,
    found: &mut Items<Aggregate>,
) -> Result<(Option<Boxed<Expr>>, Items<(Expr, Expr)>), NoMemory>
    ensures filled { IfOk result (λ r. r ≡ (
      of,
      (spec.all (map spec.pair_part whens.now)).filled (length found.old),
    )) }
    ensures found { OnOk result (found.new
        ≡ found.old ++ (spec.all (map spec.pair_part whens.now)).aggregates) }
{
    let whens = whens_filled(alloc, whens, found)?;
    Ok((of, whens))
}

#[cycle(filled)]
fn case_filled(
    alloc: Global,
    other: &Option<Boxed<Expr>>,
    of: Option<Boxed<Expr>>,
    whens: Items<(Expr, Expr)>,
    found: &mut Items<Aggregate>,
) -> Result<Expr, NoMemory>
    ensures filled { IfOk result (λ e. e ≡ node.Case of whens
        ((spec.optional_part other.now).filled (length found.old))) }
    ensures found { OnOk result (found.new
        ≡ found.old ++ (spec.optional_part other.now).aggregates) }
{
    let other = optional_filled(alloc, other, found)?;
    Ok(Expr::Case { of, whens, other })
}

fn names_copy(alloc: Global, names: &[Name]) -> Result<Items<Name>, NoMemory>
    ensures { IfOk result (λ copies. copies ≡ names.now) }
{
    let mut copies = Items::new(alloc);
    for name in names {
        copies.push(name.copy()?)?;
    }
    Ok(copies)
}
