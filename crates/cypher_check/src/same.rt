//! Whether two expressions are the same tree.
ghost use Rattle.std.specs.Prelude.{◌≡◌};
ghost use Rattle.std.specs.Str.{bytes_eq};
ghost use Rattle.std.specs.Cmp.Lexicographic.{pointwise};
ghost use Rattle.cypher_check.specs.Same.{same_expr, same_post, same_pred, same_option, same_pair, same_cmp, same_sum, same_prod, cmp_place, sum_place, prod_place, fun_place, agg_place};

use cypher_syntax::{AggFun, CmpOp, Expr, Fun, PostOp, PredOp, ProdOp, SumOp};
use graph_value::Name;
use sqlite_items::Boxed;

fn cmp_place(x: CmpOp) -> u8
    ensures { result ≡ cmp_place x }
{
    x as u8
}

fn sum_place(x: SumOp) -> u8
    ensures { result ≡ sum_place x }
{
    x as u8
}

fn prod_place(x: ProdOp) -> u8
    ensures { result ≡ prod_place x }
{
    x as u8
}

fn fun_place(x: Fun) -> u8
    ensures { result ≡ fun_place x }
{
    x as u8
}

fn agg_place(x: AggFun) -> u8
    ensures { result ≡ agg_place x }
{
    x as u8
}

fn names_same(a: &[Name], b: &[Name]) -> bool
    ensures { result ≡ pointwise bytes_eq a.now b.now }
{
    a == b
}

/// Whether two expressions are the same, part by part.
#[cycle(same)]
pub fn same_exprs(a: &Expr, b: &Expr) -> bool
    ensures { result ≡ same_expr a.now b.now }
{
    match (a, b) {
        (Expr::Lit(a), Expr::Lit(b)) => a.same(b),
        (Expr::Var(a), Expr::Var(b)) => a == b,
        (Expr::List(a), Expr::List(b)) => all_same(a.as_slice(), b.as_slice()),
        (Expr::Call(f, a), Expr::Call(g, b)) => {
            fun_place(*f) == fun_place(*g) && all_same(a.as_slice(), b.as_slice())
        }
        (Expr::CountRows, Expr::CountRows) => true,
        (
            Expr::Agg {
                fun: f,
                distinct: d,
                of: a,
            },
            Expr::Agg {
                fun: g,
                distinct: c,
                of: b,
            },
        ) => { agg_place(*f) == agg_place(*g) && *d == *c && same_exprs(a.get(), b.get()) }
        (
            Expr::Case {
                of: a,
                whens: xs,
                other: x,
            },
            Expr::Case {
                of: b,
                whens: ys,
                other: y,
            },
        ) => {
            options_same(a, b) && (pairs_same(xs.as_slice(), ys.as_slice()) && options_same(x, y))
        }
        (Expr::Or(a), Expr::Or(b)) => all_same(a.as_slice(), b.as_slice()),
        (Expr::Xor(a), Expr::Xor(b)) => all_same(a.as_slice(), b.as_slice()),
        (Expr::And(a), Expr::And(b)) => all_same(a.as_slice(), b.as_slice()),
        (Expr::Not(a), Expr::Not(b)) => same_exprs(a.get(), b.get()),
        (Expr::Cmp(a, xs), Expr::Cmp(b, ys)) => {
            same_exprs(a.get(), b.get()) && compared_same(xs.as_slice(), ys.as_slice())
        }
        (Expr::Pred(a, xs), Expr::Pred(b, ys)) => {
            same_exprs(a.get(), b.get()) && tests_same(xs.as_slice(), ys.as_slice())
        }
        (Expr::Sum(a, xs), Expr::Sum(b, ys)) => {
            same_exprs(a.get(), b.get()) && added_same(xs.as_slice(), ys.as_slice())
        }
        (Expr::Prod(a, xs), Expr::Prod(b, ys)) => {
            same_exprs(a.get(), b.get()) && multiplied_same(xs.as_slice(), ys.as_slice())
        }
        (Expr::Sign(f, a), Expr::Sign(g, b)) => {
            sum_place(*f) == sum_place(*g) && same_exprs(a.get(), b.get())
        }
        (Expr::Post(a, xs), Expr::Post(b, ys)) => {
            same_exprs(a.get(), b.get()) && posts_same(xs.as_slice(), ys.as_slice())
        }
        _ => false,
    }
}

#[cycle(same)]
fn options_same(a: &Option<Boxed<Expr>>, b: &Option<Boxed<Expr>>) -> bool
    ensures { result ≡ same_option a.now b.now }
{
    match (a, b) {
        (None, None) => true,
        (Some(a), Some(b)) => same_exprs(a.get(), b.get()),
        (None, Some(_)) | (Some(_), None) => false,
    }
}

#[cycle(same)]
fn same_tests(a: &PredOp, b: &PredOp) -> bool
    ensures { result ≡ same_pred a.now b.now }
{
    match (a, b) {
        (PredOp::OneOf(a), PredOp::OneOf(b)) => same_exprs(a, b),
        (PredOp::Starts(a), PredOp::Starts(b)) => same_exprs(a, b),
        (PredOp::Ends(a), PredOp::Ends(b)) => same_exprs(a, b),
        (PredOp::Contains(a), PredOp::Contains(b)) => same_exprs(a, b),
        (PredOp::IsNull, PredOp::IsNull) | (PredOp::IsNotNull, PredOp::IsNotNull) => true,
        _ => false,
    }
}

#[cycle(same)]
fn same_posts(a: &PostOp, b: &PostOp) -> bool
    ensures { result ≡ same_post a.now b.now }
{
    match (a, b) {
        (PostOp::Prop(a), PostOp::Prop(b)) => a == b,
        (PostOp::At(a), PostOp::At(b)) => same_exprs(a, b),
        (PostOp::Labels(a), PostOp::Labels(b)) => names_same(a.as_slice(), b.as_slice()),
        _ => false,
    }
}

#[cycle(same)]
fn all_same(a: &[Expr], b: &[Expr]) -> bool
    ensures { result ≡ pointwise same_expr a.now b.now }
{
    if a.len() != b.len() {
        return false;
    }
    for (i, x) in a.iter().enumerate() {
        if !same_exprs(x, &b[i]) {
            return false;
        }
    }
    true
}

#[cycle(same)]
fn pairs_same(a: &[(Expr, Expr)], b: &[(Expr, Expr)]) -> bool
    ensures { result ≡ pointwise same_pair a.now b.now }
{
    if a.len() != b.len() {
        return false;
    }
    for (i, x) in a.iter().enumerate() {
        if !(same_exprs(&x.0, &b[i].0) && same_exprs(&x.1, &b[i].1)) {
            return false;
        }
    }
    true
}

#[cycle(same)]
fn compared_same(a: &[(CmpOp, Expr)], b: &[(CmpOp, Expr)]) -> bool
    ensures { result ≡ pointwise same_cmp a.now b.now }
{
    if a.len() != b.len() {
        return false;
    }
    for (i, x) in a.iter().enumerate() {
        if !(cmp_place(x.0) == cmp_place(b[i].0) && same_exprs(&x.1, &b[i].1)) {
            return false;
        }
    }
    true
}

#[cycle(same)]
fn added_same(a: &[(SumOp, Expr)], b: &[(SumOp, Expr)]) -> bool
    ensures { result ≡ pointwise same_sum a.now b.now }
{
    if a.len() != b.len() {
        return false;
    }
    for (i, x) in a.iter().enumerate() {
        if !(sum_place(x.0) == sum_place(b[i].0) && same_exprs(&x.1, &b[i].1)) {
            return false;
        }
    }
    true
}

#[cycle(same)]
fn multiplied_same(a: &[(ProdOp, Expr)], b: &[(ProdOp, Expr)]) -> bool
    ensures { result ≡ pointwise same_prod a.now b.now }
{
    if a.len() != b.len() {
        return false;
    }
    for (i, x) in a.iter().enumerate() {
        if !(prod_place(x.0) == prod_place(b[i].0) && same_exprs(&x.1, &b[i].1)) {
            return false;
        }
    }
    true
}

#[cycle(same)]
fn tests_same(a: &[PredOp], b: &[PredOp]) -> bool
    ensures { result ≡ pointwise same_pred a.now b.now }
{
    if a.len() != b.len() {
        return false;
    }
    for (i, x) in a.iter().enumerate() {
        if !same_tests(x, &b[i]) {
            return false;
        }
    }
    true
}

#[cycle(same)]
fn posts_same(a: &[PostOp], b: &[PostOp]) -> bool
    ensures { result ≡ pointwise same_post a.now b.now }
{
    if a.len() != b.len() {
        return false;
    }
    for (i, x) in a.iter().enumerate() {
        if !same_posts(x, &b[i]) {
            return false;
        }
    }
    true
}
