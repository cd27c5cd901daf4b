ghost use Rattle.std.specs.Prelude.{◌≡◌, ◌++◌, ℕ, List};
ghost use Rattle.std.specs.List.{flat_map};
ghost use Rattle.cypher_check.specs.Marks.{expr_marks, post_marks, pred_marks, pair_marks, optional_marks, name_marks, aggregate_marks, inner};
ghost use Rattle.cypher_check.specs.Faults.{first_fault, refused};

use crate::names::fault::Fault;
use crate::names::lists::has;
use crate::names::place::Place;
use cypher_syntax::{CmpOp, Expr, PostOp, PredOp, ProdOp, SumOp};
use graph_value::Name;
use sqlite_items::Boxed;

/// A name where it is used.
fn used<'a>(scope: &[Name], name: &'a Name, place: Place) -> Option<Fault<'a>>
    ensures { refused result ≡ first_fault scope.now (name_marks name.now place) }
{
    match place {
        Place::Seeking => None,
        Place::Plain | Place::Grouped if !has(scope, name) => Some(Fault::Unbound(name)),
        Place::Plain => None,
        Place::Grouped => Some(Fault::AggregatePlace),
    }
}

/// An aggregate where it begins.
fn aggregate<'a>(place: Place) -> Option<Fault<'a>>
    ensures { (scope : List (List ℕ)) → refused result ≡ first_fault scope (aggregate_marks place) }
{
    match place {
        Place::Grouped => None,
        Place::Plain | Place::Seeking => Some(Fault::AggregatePlace),
    }
}

/// The place of what stands in an aggregate.
fn inner(place: Place) -> Place
    ensures { result ≡ inner place }
{
    match place {
        Place::Plain | Place::Grouped => Place::Plain,
        Place::Seeking => Place::Seeking,
    }
}

/// The first fault in an expression, in reading order.
#[cycle(names)]
pub(crate) fn expr<'a>(scope: &[Name], e: &'a Expr, place: Place) -> Option<Fault<'a>>
    ensures { refused result ≡ first_fault scope.now (expr_marks e.now place) }
{
    match e {
        Expr::Lit(_) => None,
        Expr::Var(name) => used(scope, name, place),
        Expr::CountRows => aggregate(place),
        Expr::Agg { of, .. } => match aggregate(place) {
            None => expr(scope, of.get(), inner(place)),
            Some(fault) => Some(fault),
        },
        Expr::List(items)
        | Expr::Call(_, items)
        | Expr::Or(items)
        | Expr::Xor(items)
        | Expr::And(items) => exprs(scope, items.as_slice(), place),
        Expr::Not(e) | Expr::Sign(_, e) => expr(scope, e.get(), place),
        Expr::Case { of, whens, other } => match option(scope, of, place) {
            None => match pairs(scope, whens.as_slice(), place) {
                None => option(scope, other, place),
                Some(fault) => Some(fault),
            },
            Some(fault) => Some(fault),
        },
        Expr::Cmp(first, rest) => match expr(scope, first.get(), place) {
            None => compared(scope, rest.as_slice(), place),
            Some(fault) => Some(fault),
        },
        Expr::Sum(first, rest) => match expr(scope, first.get(), place) {
            None => added(scope, rest.as_slice(), place),
            Some(fault) => Some(fault),
        },
        Expr::Prod(first, rest) => match expr(scope, first.get(), place) {
            None => multiplied(scope, rest.as_slice(), place),
            Some(fault) => Some(fault),
        },
        Expr::Pred(first, rest) => match expr(scope, first.get(), place) {
            None => tests(scope, rest.as_slice(), place),
            Some(fault) => Some(fault),
        },
        Expr::Post(first, rest) => match expr(scope, first.get(), place) {
            None => posts(scope, rest.as_slice(), place),
            Some(fault) => Some(fault),
        },
    }
}

/// An expression that may be left out.
#[cycle(names)]
fn option<'a>(scope: &[Name], e: &'a Option<Boxed<Expr>>, place: Place) -> Option<Fault<'a>>
    ensures { refused result ≡ first_fault scope.now (optional_marks e.now place) }
{
    match e {
        Some(e) => expr(scope, e.get(), place),
        None => None,
    }
}

#[cycle(names)]
fn test<'a>(scope: &[Name], test: &'a PredOp, place: Place) -> Option<Fault<'a>>
    ensures { refused result ≡ first_fault scope.now (pred_marks test.now place) }
{
    match test {
        PredOp::OneOf(e) | PredOp::Starts(e) | PredOp::Ends(e) | PredOp::Contains(e) => {
            expr(scope, e, place)
        }
        PredOp::IsNull | PredOp::IsNotNull => None,
    }
}

#[cycle(names)]
fn post<'a>(scope: &[Name], op: &'a PostOp, place: Place) -> Option<Fault<'a>>
    ensures { refused result ≡ first_fault scope.now (post_marks op.now place) }
{
    match op {
        PostOp::At(e) => expr(scope, e, place),
        PostOp::Prop(_) | PostOp::Labels(_) => None,
    }
}

#[cycle(names)]
fn exprs<'a>(scope: &[Name], items: &'a [Expr], place: Place) -> Option<Fault<'a>>
    ensures { refused result ≡ first_fault scope.now (flat_map (λ e. expr_marks e place) items.now) }
{
    for e in items {
        if let Some(fault) = expr(scope, e, place) {
            return Some(fault);
        }
    }
    None
}

#[cycle(names)]
fn pairs<'a>(scope: &[Name], whens: &'a [(Expr, Expr)], place: Place) -> Option<Fault<'a>>
    ensures { refused result ≡ first_fault scope.now (flat_map (λ w. pair_marks w place) whens.now) }
{
    for when in whens {
        if let Some(fault) = expr(scope, &when.0, place) {
            return Some(fault);
        }
        if let Some(fault) = expr(scope, &when.1, place) {
            return Some(fault);
        }
    }
    None
}

#[cycle(names)]
fn compared<'a>(scope: &[Name], rest: &'a [(CmpOp, Expr)], place: Place) -> Option<Fault<'a>>
    ensures { refused result ≡ first_fault scope.now (flat_map (λ p. expr_marks p.1 place) rest.now) }
{
    for p in rest {
        if let Some(fault) = expr(scope, &p.1, place) {
            return Some(fault);
        }
    }
    None
}

#[cycle(names)]
fn added<'a>(scope: &[Name], rest: &'a [(SumOp, Expr)], place: Place) -> Option<Fault<'a>>
    ensures { refused result ≡ first_fault scope.now (flat_map (λ p. expr_marks p.1 place) rest.now) }
{
    for p in rest {
        if let Some(fault) = expr(scope, &p.1, place) {
            return Some(fault);
        }
    }
    None
}

#[cycle(names)]
fn multiplied<'a>(scope: &[Name], rest: &'a [(ProdOp, Expr)], place: Place) -> Option<Fault<'a>>
    ensures { refused result ≡ first_fault scope.now (flat_map (λ p. expr_marks p.1 place) rest.now) }
{
    for p in rest {
        if let Some(fault) = expr(scope, &p.1, place) {
            return Some(fault);
        }
    }
    None
}

#[cycle(names)]
fn tests<'a>(scope: &[Name], tests: &'a [PredOp], place: Place) -> Option<Fault<'a>>
    ensures { refused result ≡ first_fault scope.now (flat_map (λ t. pred_marks t place) tests.now) }
{
    for t in tests {
        if let Some(fault) = test(scope, t, place) {
            return Some(fault);
        }
    }
    None
}

#[cycle(names)]
fn posts<'a>(scope: &[Name], posts: &'a [PostOp], place: Place) -> Option<Fault<'a>>
    ensures { refused result ≡ first_fault scope.now (flat_map (λ a. post_marks a place) posts.now) }
{
    for a in posts {
        if let Some(fault) = post(scope, a, place) {
            return Some(fault);
        }
    }
    None
}
