ghost use Rattle.std.specs.Prelude.{◌≡◌, not};
ghost use Rattle.std.specs.List.{list_any, list_all};
ghost use Rattle.cypher_check.specs.Clauses.{has_aggregate};
ghost use Rattle.cypher_check.specs.Verdict.{is_update, writes, is_timed, is_between, is_single_match, is_plain_return, has_between_shape};

use crate::walk::reads::has_aggregate;
use cypher_syntax::{Clause, Item, Projection, Query, Stage, Time};

fn any_update(clauses: &[Clause]) -> bool
    ensures { result ≡ list_any is_update clauses.now }
{
    clauses.iter().any(|c| matches!(c, Clause::Update(_)))
}

fn any_stage_updates(stages: &[Stage]) -> bool
    ensures { result ≡ list_any (λ s. list_any is_update s.clauses) stages.now }
{
    stages.iter().any(|s| any_update(s.clauses.as_slice()))
}

/// Whether a clause writes.
pub(crate) fn writes(q: &Query) -> bool
    ensures { result ≡ writes q.now }
{
    any_stage_updates(q.stages.as_slice()) || any_update(q.clauses.as_slice())
}

/// Whether a TT clause stands on a query.
pub(crate) fn is_timed(time: Time) -> bool
    ensures { result ≡ is_timed time }
{
    !matches!(time, Time::None)
}

pub(crate) fn is_between(time: Time) -> bool
    ensures { result ≡ is_between time }
{
    matches!(time, Time::Between(_, _))
}

fn is_single_match(clauses: &[Clause]) -> bool
    ensures { result ≡ is_single_match clauses.now }
{
    match clauses {
        [Clause::Match(m)] => !m.optional,
        _ => false,
    }
}

fn no_aggregate(items: &[Item]) -> bool
    ensures { result ≡ list_all (λ i. not (has_aggregate i.expr)) items.now }
{
    items.iter().all(|i| !has_aggregate(&i.expr))
}

fn is_plain_return(returns: &Option<Projection>) -> bool
    ensures { result ≡ is_plain_return returns.now }
{
    match returns {
        None => false,
        Some(p) => {
            !p.distinct
                && !p.star
                && no_aggregate(p.items.as_slice())
                && p.sort.is_empty()
                && p.skip.is_none()
                && p.limit.is_none()
        }
    }
}

/// Whether a query is one MATCH and a plain RETURN.
pub(crate) fn has_between_shape(q: &Query) -> bool
    ensures { result ≡ has_between_shape q.now }
{
    q.stages.is_empty() && is_single_match(q.clauses.as_slice()) && is_plain_return(&q.returns)
}
