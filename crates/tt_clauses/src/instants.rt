//! What is found in a store's graphs at the instants of a span.
ghost use Rattle.std.specs.Prelude.{◌≡◌, ◌≤◌, ◌+◌, IfOk, Ok, map};
ghost use Rattle.expr_eval.specs.Outcome.{Answers};
ghost use Rattle.pattern_match.specs.Kept.{columns};
ghost use Rattle.pattern_match.specs.Tuples.{tuples_for};
ghost use Rattle.tt_clauses.specs.Found as found;
ghost use Rattle.tt_clauses.specs.Instants.{instants};
ghost use Rattle.tt_clauses.specs.Recalling.{Tells};
ghost use Rattle.tt_clauses.specs.Seen.{Rises, no_tuple, seen_at, with_tuples};
ghost use Rattle.tt_clauses.specs.Values as values;

use crate::access::{Access, Join};
use crate::evaluated::{matched, values_kept};
use crate::tuples::{Tuple, Tuples};
use crate::values::Values;
use expr_eval::EvalRefused;
use pattern_match::Plan;
use sqlite_items::Items;
use store_view::ViewOf;
use world_model::{GraphStore, When};

/// Instants, each with the tuples that match at it.
pub(crate) type SeenList = Items<(u64, Tuples)>;

/// The tuples that match at an instant.
fn matched_at<S: GraphStore>(
    access: &Access<S>,
    store: &mut S,
    plan: &Plan,
    t: u64,
) -> Result<Tuples, EvalRefused>
    requires { t ≤ access.now.txn.now.start }
    ensures tells { Tells S.stands S.caller S.alone access.now.txn.now.start
        (λ graphs. Answers (Ok (with_tuples no_tuple (tuples_for (graphs t) plan.now.steps))))
        store.old store.new result }
    ensures stays { S.running store.new ≡ S.running store.old }
{
    let mut view = ViewOf::new(access.alloc, access.rt, store, access.txn, When::At(t));
    matched(access.alloc, plan, &mut view)
}

/// The tuples that match at each instant of a span.
pub(crate) fn seen<S: GraphStore>(
    access: &Access<S>,
    store: &mut S,
    plan: &Plan,
    first: u64,
    last: u64,
) -> Result<SeenList, EvalRefused>
    requires past { last ≤ access.now.txn.now.start }
    requires ordered { first ≤ last }
    ensures tells { Tells S.stands S.caller S.alone access.now.txn.now.start
        (λ graphs. Answers (Ok (map (seen_at graphs plan.now) (instants first last))))
        store.old store.new result }
    ensures rises { IfOk result (λ seen. Rises first seen (last + 1)) }
    ensures stays { S.running store.new ≡ S.running store.old }
{
    let mut seen = Items::new(access.alloc);
    for t in first..=last {
        let tuples = matched_at(access, store, plan, t)?;
        seen.push((t, tuples))?;
    }
    Ok(seen)
}

/// The values of a tuple that matches at an instant.
fn values_at<S: GraphStore>(
    access: &Access<S>,
    store: &mut S,
    join: &Join,
    tuple: &Tuple,
    t: u64,
) -> Result<Option<Values>, EvalRefused>
    requires { t ≤ access.now.txn.now.start }
    ensures tells { Tells S.stands S.caller S.alone access.now.txn.now.start
        (λ graphs. Answers (values.values_kept (graphs t) join.now.filter.now join.now.items.now
        (columns join.now.plan.now.gives tuple.now))) store.old store.new result }
    ensures stays { S.running store.new ≡ S.running store.old }
{
    let when = When::At(t);
    let mut view = ViewOf::new(access.alloc, access.rt, store, access.txn, when);
    values_kept(access.alloc, join, tuple, &mut view)
}

/// What a tuple gives at an instant: values, or nothing.
pub(crate) fn given_at<S: GraphStore>(
    access: &Access<S>,
    store: &mut S,
    join: &Join,
    tuple: &Tuple,
    at: &(u64, Tuples),
) -> Result<Option<Values>, EvalRefused>
    requires { at.now.0 ≤ access.now.txn.now.start }
    ensures tells { Tells S.stands S.caller S.alone access.now.txn.now.start
        (λ graphs r. at.now ≡ seen_at graphs join.now.plan.now at.now.0 →
        Answers (found.given_at graphs join.now.plan.now join.now.filter.now join.now.items.now
        tuple.now at.now.0) r) store.old store.new result }
    ensures stays { S.running store.new ≡ S.running store.old }
{
    let (t, tuples) = at;
    if tuples.contains(tuple) {
        values_at(access, store, join, tuple, *t)
    } else {
        Ok(None)
    }
}
