//! TT SNAPSHOT: a query on the graph of an instant.
ghost use Rattle.std.specs.Prelude.{◌≡◌, ℕ, true};
ghost use Rattle.cypher_check.specs.Answer.{query_of};
ghost use Rattle.cypher_syntax.specs.declared.tree.query.Time.TheVariants.{Snapshot};
ghost use Rattle.expr_eval.specs.Outcome.{Answers};
ghost use Rattle.graph_record.specs.Graph.{Graph};
ghost use Rattle.query_run.specs.Instant.{ShowsAt, is_snapshot};
ghost use Rattle.query_run.specs.Plain as plain;
ghost use Rattle.world_model.specs.declared.event.When.TheVariants.{At};
ghost use Rattle.world_model.specs.Sending.{OnlyReads, Sees};

use crate::access::Access;
use crate::plain::rows_of;
use crate::reading::or_stop;
use crate::{Rows, Stop};
use cypher_check::Checked;
use cypher_syntax::{Query, Time};
use expr_eval::EvalRefused;
use std::alloc::Global;
use store_view::ViewOf;
use world_model::{GraphStore, Txn, When};

/// The rows of a query that writes nothing, on the graph that the commits up to an instant left.
fn rows_at<S: GraphStore>(
    access: &Access<S>,
    store: &mut S,
    query: &Query,
    t: u64,
) -> Result<Rows, EvalRefused>
    ensures on { (g : Graph) →
        Sees S.stands S.caller S.alone access.now.txn.now.start (At t) store.old g →
        Answers (plain.rows_of g query.now) result }
    ensures reads { OnlyReads S.stands S.caller S.alone store.old store.new }
    ensures stays { S.running store.new ≡ S.running store.old }
{
    let mut view = ViewOf::new(access.alloc, access.rt, store, access.txn, When::At(t));
    rows_of(access.alloc, query, &mut view)
}

/// Answers a query with TT SNAPSHOT in its caller's open transaction: the rows of its RETURN, or why it stopped.
///
/// In each history that the store stood for, they are what the query means on the graph that the commits up to the instant
/// left: the transaction's own writes are not seen, and each entity is shown as of then. An instant past the start of the
/// transaction is `TimeAhead`, before anything is read. `NoMemory` may come anywhere. The caller only reads; other callers may
/// act in between. The transaction stays open.
pub fn snapshot<S: GraphStore>(
    alloc: Global,
    checked: &Checked,
    rt: &S::Rt,
    store: &mut S,
    txn: &Txn,
) -> Result<Rows, Stop>
    requires { is_snapshot (query_of checked.now).time ≡ true }
    ensures shows { (t : ℕ) → (query_of checked.now).time ≡ Snapshot t →
        ShowsAt S.stands S.caller S.alone txn.now.start t (query_of checked.now)
        store.old store.new result }
    ensures stays { S.running store.new ≡ S.running store.old }
{
    let Time::Snapshot(t) = *checked.time() else {
        unreachable!()
    };
    let start = txn.start();
    if start < t {
        return Err(Stop::TimeAhead { t, start });
    }
    let access = Access { alloc, rt, txn };
    or_stop(rows_at(&access, store, checked.query(), t))
}
