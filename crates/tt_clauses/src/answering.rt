//! Whole queries with TT BETWEEN.
ghost use Rattle.std.specs.Prelude.{◌≡◌, ◌≤◌, ◌<◌, Err, IsSomeAnd};
ghost use Rattle.cypher_check.specs.Answer.{query_of};
ghost use Rattle.expr_eval.specs.Outcome.{Answers};
ghost use Rattle.query_run.specs.declared.stop.Stop.TheVariants.{TimeAhead};
ghost use Rattle.query_run.specs.Parts.{stopped};
ghost use Rattle.tt_clauses.specs.Between.{HasSpan, IsMeant, IsMeantBy, asked_in, plan_of};
ghost use Rattle.tt_clauses.specs.Recalling.{Tells};

use crate::access::{Access, Join};
use crate::joined::joined;
use crate::parts::{Parts, parts_in};
use cypher_check::Checked;
use cypher_syntax::MatchClause;
use expr_eval::EvalRefused;
use graph_reader::Graph;
use pattern_match::{Plan, asked};
use query_run::{Rows, Stop};
use sqlite_items::Items;
use std::alloc::Global;
use world_model::{GraphStore, Txn};

/// What the patterns ask. Their maps are evaluated once: no name is bound there, so no graph matters.
fn plan(alloc: Global, clause: &MatchClause) -> Result<Plan, EvalRefused>
    ensures { Answers (plan_of clause.now) result }
{
    let mut graph = Graph::new(alloc);
    asked(
        alloc,
        clause.patterns.as_slice(),
        &Items::new(alloc),
        &mut graph,
    )
}

fn answered<S: GraphStore>(
    access: &Access<S>,
    store: &mut S,
    parts: &Parts,
) -> Result<Rows, EvalRefused>
    requires past { parts.now.last ≤ access.now.txn.now.start }
    requires ordered { parts.now.first ≤ parts.now.last }
    ensures tells { Tells S.stands S.caller S.alone access.now.txn.now.start
        (λ graphs. IsMeant graphs (record {
          clause = parts.now.clause.now;
          returns = parts.now.returns.now;
          first = parts.now.first;
          last = parts.now.last;
        }))
        store.old store.new result }
    ensures stays { S.running store.new ≡ S.running store.old }
{
    let plan = plan(access.alloc, parts.clause)?;
    let join = Join {
        plan: &plan,
        filter: &parts.clause.filter,
        items: parts.returns.items.as_slice(),
    };
    joined(access, store, &join, parts.first, parts.last)
}

fn or_stop(answer: Result<Rows, EvalRefused>) -> Result<Rows, Stop>
    ensures { result ≡ stopped answer }
{
    match answer {
        Ok(rows) => Ok(rows),
        Err(why) => Err(Stop::Eval(why)),
    }
}

/// The rows of a query with TT BETWEEN, for the open transaction of a store's caller. The caller's own writes are no part
/// of what is read.
///
/// Where the last instant is past the start of the transaction, `TimeAhead` names it, and nothing is read. Else the rows
/// are what the query means on the graphs at the instants, in each history that the store stood for: for each tuple that
/// matches at some instant, ascending, the maximal runs of instants at which its values are printed alike, each row with
/// its first and its last instant. The refusals, where they compete: that of the maps; that of the first tuple that has
/// one, at its first instant; `RowLimit`. `NoMemory` may come anywhere. The caller has only read; the transaction stays
/// open.
pub fn between<S: GraphStore>(
    alloc: Global,
    checked: &Checked,
    rt: &S::Rt,
    store: &mut S,
    txn: &Txn,
) -> Result<Rows, Stop>
    requires span { HasSpan (query_of checked.now).time }
    ensures ahead { IsSomeAnd (asked_in (query_of checked.now)) (λ asked.
        txn.now.start < asked.last →
        (result ≡ Err (TimeAhead asked.last txn.now.start)) × (store.new ≡ store.old)) }
    ensures tells { IsSomeAnd (asked_in (query_of checked.now)) (λ asked.
        asked.last ≤ txn.now.start → Tells S.stands S.caller S.alone txn.now.start
        (λ graphs. IsMeantBy graphs asked) store.old store.new result) }
    ensures stays { S.running store.new ≡ S.running store.old }
{
    let parts = parts_in(checked);
    let start = txn.start();
    if start < parts.last {
        return Err(Stop::TimeAhead {
            t: parts.last,
            start,
        });
    }
    let access = Access { alloc, rt, txn };
    or_stop(answered(&access, store, &parts))
}
