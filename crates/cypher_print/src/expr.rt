ghost use Rattle.std.specs.Prelude.{◌≡◌, ◌∷◌, OnOk};
ghost use Rattle.std.specs.List.{flat_map};
ghost use Rattle.cypher_print.specs.Pieces.{written, cmp_text, sum_text, prod_text};
ghost use Rattle.cypher_print.specs.Printed.{joined, distinct_word, expr, post, pred, option, branch};

use crate::labels::labels;
use crate::level::level;
use crate::operators::{agg_text, cmp_text, fun_text, prod_text, sign_text, sum_text};
use crate::writer::Writer;
use cypher_syntax::{CmpOp, Expr, PostOp, PredOp, ProdOp, SumOp};
use graph_value::NoMemory;
use sqlite_items::Boxed;

/// DISTINCT, where it stands.
pub(crate) fn distinct(out: &mut Writer, distinct: bool) -> Result<(), NoMemory>
    ensures { OnOk result (out.new ≡ written out.old (distinct_word distinct)) }
{
    if distinct {
        return out.push("DISTINCT ");
    }
    Ok(())
}

/// An expression at a place that asks for a level.
#[cycle(print)]
pub(crate) fn expr(out: &mut Writer, e: &Expr, need: u8) -> Result<(), NoMemory>
    ensures { OnOk result (out.new ≡ written out.old (expr e.now need)) }
{
    if level(e) < need {
        out.push("(")?;
        bare(out, e)?;
        return out.push(")");
    }
    bare(out, e)
}

/// An expression without parentheses round it.
#[cycle(print)]
#[tactic(auto, using(crate::proofs::PrintLemmas::printed_rules))]
pub(crate) fn bare(out: &mut Writer, e: &Expr) -> Result<(), NoMemory>
    ensures { OnOk result (out.new ≡ written out.old (expr e.now 0)) }
{
    match e {
        Expr::Lit(v) => out.value(v),
        Expr::Var(n) => out.name(n),
        Expr::CountRows => out.push("count(*)"),
        Expr::List(items) => {
            out.push("[")?;
            listed(out, items.as_slice(), ", ", 0)?;
            out.push("]")
        }
        Expr::Call(f, items) => {
            out.push(fun_text(*f))?;
            out.push("(")?;
            listed(out, items.as_slice(), ", ", 0)?;
            out.push(")")
        }
        Expr::Agg {
            fun,
            distinct: only,
            of,
        } => {
            out.push(agg_text(*fun))?;
            out.push("(")?;
            distinct(out, *only)?;
            expr(out, of.get(), 0)?;
            out.push(")")
        }
        Expr::Case { of, whens, other } => {
            out.push("CASE")?;
            option(out, " ", of)?;
            branches(out, whens.as_slice())?;
            option(out, " ELSE ", other)?;
            out.push(" END")
        }
        Expr::Or(items) => listed(out, items.as_slice(), " OR ", 1),
        Expr::Xor(items) => listed(out, items.as_slice(), " XOR ", 2),
        Expr::And(items) => listed(out, items.as_slice(), " AND ", 3),
        Expr::Not(e) => {
            out.push("NOT ")?;
            expr(out, e.get(), 3)
        }
        Expr::Cmp(first, rest) => {
            expr(out, first.get(), 5)?;
            compared(out, rest.as_slice())
        }
        Expr::Pred(first, rest) => {
            expr(out, first.get(), 6)?;
            tests(out, rest.as_slice())
        }
        Expr::Sum(first, rest) => {
            expr(out, first.get(), 7)?;
            added(out, rest.as_slice())
        }
        Expr::Prod(first, rest) => {
            expr(out, first.get(), 8)?;
            multiplied(out, rest.as_slice())
        }
        Expr::Sign(op, e) => {
            out.push(sign_text(*op))?;
            expr(out, e.get(), 8)
        }
        Expr::Post(first, rest) => {
            expr(out, first.get(), 10)?;
            posts(out, rest.as_slice())
        }
    }
}

#[cycle(print)]
pub(crate) fn option(out: &mut Writer, word: &str, e: &Option<Boxed<Expr>>) -> Result<(), NoMemory>
    ensures { OnOk result (out.new ≡ written out.old (option word.now e.now)) }
{
    match e {
        Some(e) => {
            out.push(word)?;
            expr(out, e.get(), 0)
        }
        None => Ok(()),
    }
}

#[cycle(print)]
pub(crate) fn listed(
    out: &mut Writer,
    items: &[Expr],
    separator: &str,
    need: u8,
) -> Result<(), NoMemory>
    ensures { OnOk result (out.new
        ≡ written out.old (joined separator.now (λ e. expr e need) items.now)) }
{
    match items {
        [] => Ok(()),
        [first, rest @ ..] => {
            expr(out, first, need)?;
            for e in rest {
                out.push(separator)?;
                expr(out, e, need)?;
            }
            Ok(())
        }
    }
}

#[cycle(print)]
pub(crate) fn compared(out: &mut Writer, rest: &[(CmpOp, Expr)]) -> Result<(), NoMemory>
    ensures { OnOk result (out.new
        ≡ written out.old (flat_map (λ p. cmp_text p.0 ∷ expr p.1 5) rest.now)) }
{
    for p in rest {
        out.push(cmp_text(p.0))?;
        expr(out, &p.1, 5)?;
    }
    Ok(())
}

#[cycle(print)]
pub(crate) fn added(out: &mut Writer, rest: &[(SumOp, Expr)]) -> Result<(), NoMemory>
    ensures { OnOk result (out.new
        ≡ written out.old (flat_map (λ p. sum_text p.0 ∷ expr p.1 7) rest.now)) }
{
    for p in rest {
        out.push(sum_text(p.0))?;
        expr(out, &p.1, 7)?;
    }
    Ok(())
}

#[cycle(print)]
pub(crate) fn multiplied(out: &mut Writer, rest: &[(ProdOp, Expr)]) -> Result<(), NoMemory>
    ensures { OnOk result (out.new
        ≡ written out.old (flat_map (λ p. prod_text p.0 ∷ expr p.1 8) rest.now)) }
{
    for p in rest {
        out.push(prod_text(p.0))?;
        expr(out, &p.1, 8)?;
    }
    Ok(())
}

#[cycle(print)]
pub(crate) fn branches(out: &mut Writer, whens: &[(Expr, Expr)]) -> Result<(), NoMemory>
    ensures { OnOk result (out.new ≡ written out.old (flat_map branch whens.now)) }
{
    for when in whens {
        out.push(" WHEN ")?;
        expr(out, &when.0, 0)?;
        out.push(" THEN ")?;
        expr(out, &when.1, 0)?;
    }
    Ok(())
}

#[cycle(print)]
pub(crate) fn tests(out: &mut Writer, tests: &[PredOp]) -> Result<(), NoMemory>
    ensures { OnOk result (out.new ≡ written out.old (flat_map pred tests.now)) }
{
    for t in tests {
        test(out, t)?;
    }
    Ok(())
}

#[cycle(print)]
pub(crate) fn posts(out: &mut Writer, posts: &[PostOp]) -> Result<(), NoMemory>
    ensures { OnOk result (out.new ≡ written out.old (flat_map post posts.now)) }
{
    for a in posts {
        postfix(out, a)?;
    }
    Ok(())
}

#[cycle(print)]
pub(crate) fn test(out: &mut Writer, test: &PredOp) -> Result<(), NoMemory>
    ensures { OnOk result (out.new ≡ written out.old (pred test.now)) }
{
    match test {
        PredOp::OneOf(e) => {
            out.push(" IN ")?;
            expr(out, e, 6)
        }
        PredOp::Starts(e) => {
            out.push(" STARTS")?;
            out.push(" WITH ")?;
            expr(out, e, 6)
        }
        PredOp::Ends(e) => {
            out.push(" ENDS")?;
            out.push(" WITH ")?;
            expr(out, e, 6)
        }
        PredOp::Contains(e) => {
            out.push(" CONTAINS ")?;
            expr(out, e, 6)
        }
        PredOp::IsNull => out.push(" IS NULL"),
        PredOp::IsNotNull => {
            out.push(" IS NOT")?;
            out.push(" NULL")
        }
    }
}

#[cycle(print)]
pub(crate) fn postfix(out: &mut Writer, op: &PostOp) -> Result<(), NoMemory>
    ensures { OnOk result (out.new ≡ written out.old (post op.now)) }
{
    match op {
        PostOp::Prop(key) => {
            out.push(".")?;
            out.schema(key)
        }
        PostOp::At(index) => {
            out.push("[")?;
            expr(out, index, 0)?;
            out.push("]")
        }
        PostOp::Labels(names) => labels(out, names.as_slice()),
    }
}
