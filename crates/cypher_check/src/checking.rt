ghost use Rattle.std.specs.Prelude.{◌≡◌, None, IfOk, IfErr, OnOk};
ghost use Rattle.cypher_check.specs.Verdict.{verdict};
ghost use Rattle.cypher_check.specs.Answer.{IsRefusal, query_of};

use crate::scope::Scope;
use crate::shape::{has_between_shape, is_between, is_timed, writes};
use crate::walk::projections::query;
use crate::{CheckRefused, Checked};
use cypher_syntax::Query;
use std::alloc::Global;

/// The first of the rules that speaks against a query.
#[tactic(auto, unfolding(crate::specs::Verdict::verdict))]
fn examine(alloc: Global, q: &Query) -> Result<(), CheckRefused>
    ensures ok { OnOk result (verdict q.now ≡ None) }
    ensures refused { IfErr result (IsRefusal q.now) }
{
    if is_timed(q.time) && writes(q) {
        return Err(CheckRefused::TtWrites);
    }
    if is_between(q.time) && !has_between_shape(q) {
        return Err(CheckRefused::BetweenShape);
    }
    let mut scope = Scope::new(alloc);
    query(alloc, &mut scope, q)?;
    scope.into_answer()
}

/// A query that passes the checks: the rule that a TT clause doesn't write, then the shape of TT BETWEEN, and then the names
/// one by one in reading order. The first rule that fails is the answer.
pub fn check(alloc: Global, query: Query) -> Result<Checked, CheckRefused>
    ensures ok { IfOk result (λ checked. query_of checked ≡ query) }
    ensures refused { IfErr result (IsRefusal query) }
{
    examine(alloc, &query)?;
    Ok(Checked { query })
}
