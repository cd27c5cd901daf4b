//! What the tuples give at the instants, as rows.
ghost use Rattle.std.specs.Prelude.{◌≡◌, ◌≤◌, ◌+◌, ◌++◌, ℕ, [], IfOk, List, map};
ghost use Rattle.std.specs.List.Sorted.{IsStrictlySortedBy};
ghost use Rattle.tt_clauses.specs.Between.{Joins, Unless};
ghost use Rattle.tt_clauses.specs.Found as found;
ghost use Rattle.tt_clauses.specs.Instants.{instants};
ghost use Rattle.tt_clauses.specs.Recalling.{Tells};
ghost use Rattle.tt_clauses.specs.Seen.{AnswersAs, Comes, Rises, all_seen, seen_at};
ghost use Rattle.tt_clauses.specs.Tuples.{tuple_cmp};
ghost use Rattle.tt_intervals.specs.Runs.{Ascends};

use crate::access::{Access, Join};
use crate::instants::{given_at, seen};
use crate::rows::{Piece, limited, with_rows};
use crate::tuples::{Tuple, Tuples, ascending, with_set};
use crate::values::Values;
use expr_eval::EvalRefused;
use graph_value::NoMemory;
use query_run::Rows;
use sqlite_items::Items;
use std::alloc::Global;
use std::collections::BTreeSet;
use tt_intervals::{Span, runs};
use world_model::GraphStore;

/// One more piece, of one instant, where there is something at it.
fn with_piece(pieces: Vec<Piece>, t: u64, values: Option<Values>) -> Result<Vec<Piece>, NoMemory>
    ensures { IfOk result (λ all. all.items ≡ pieces.items ++ found.piece_at t values) }
{
    match values {
        Some(values) => {
            let mut pieces = pieces;
            pieces.push((Span::at(t), values))?;
            Ok(pieces)
        }
        None => Ok(pieces),
    }
}

/// What a tuple gives at the instants, in the order of time.
fn pieces<S: GraphStore>(
    access: &Access<S>,
    store: &mut S,
    join: &Join,
    tuple: &Tuple,
    instants: &[(u64, Tuples)],
) -> Result<Vec<Piece>, EvalRefused>
    requires { Rises 0 instants.now (access.now.txn.now.start + 1) }
    ensures tells { Tells S.stands S.caller S.alone access.now.txn.now.start
        (λ graphs r. (times : List ℕ) → instants.now ≡ map (seen_at graphs join.now.plan.now) times →
        AnswersAs r (λ pieces. pieces.items) (found.pieces_on graphs join.now.plan.now
        join.now.filter.now join.now.items.now tuple.now [] times)) store.old store.new result }
    ensures ascends { IfOk result (λ pieces. Ascends pieces.items) }
    ensures stays { S.running store.new ≡ S.running store.old }
{
    let mut pieces = Vec::new(access.alloc);
    for at in instants {
        let values = given_at(access, store, join, tuple, at)?;
        pieces = with_piece(pieces, at.0, values)?;
    }
    Ok(pieces)
}

/// The rows of the tuples, in order.
fn rows<S: GraphStore>(
    access: &Access<S>,
    store: &mut S,
    join: &Join,
    tuples: &[Tuple],
    instants: &[(u64, Tuples)],
) -> Result<Rows, EvalRefused>
    requires { Rises 0 instants.now (access.now.txn.now.start + 1) }
    ensures tells { Tells S.stands S.caller S.alone access.now.txn.now.start
        (λ graphs r. (times : List ℕ) → instants.now ≡ map (seen_at graphs join.now.plan.now) times →
        Comes (found.all_pieces graphs join.now.plan.now join.now.filter.now join.now.items.now
        times tuples.now) r) store.old store.new result }
    ensures stays { S.running store.new ≡ S.running store.old }
{
    let mut rows = Items::new(access.alloc);
    for tuple in tuples {
        let pieces = pieces(access, store, join, tuple, instants)?;
        rows = with_rows(rows, runs(pieces))?;
    }
    Ok(rows)
}

/// The tuples that match at some instant, ascending.
fn all_tuples(alloc: Global, instants: &[(u64, Tuples)]) -> Result<Items<Tuple>, NoMemory>
    ensures all { IfOk result (λ tuples. tuples ≡ (all_seen instants.now).keys) }
    ensures ascending { IfOk result (IsStrictlySortedBy tuple_cmp) }
{
    let mut all = BTreeSet::new(alloc);
    for (_, tuples) in instants {
        all = with_set(alloc, all, tuples)?;
    }
    ascending(alloc, all)
}

/// The rows of a span that isn't ahead.
pub(crate) fn joined<S: GraphStore>(
    access: &Access<S>,
    store: &mut S,
    join: &Join,
    first: u64,
    last: u64,
) -> Result<Rows, EvalRefused>
    requires past { last ≤ access.now.txn.now.start }
    requires ordered { first ≤ last }
    ensures tells { Tells S.stands S.caller S.alone access.now.txn.now.start
        (λ graphs. Unless (Joins graphs join.now.plan.now join.now.filter.now
        join.now.items.now (instants first last))) store.old store.new result }
    ensures stays { S.running store.new ≡ S.running store.old }
{
    let instants = seen(access, store, join.plan, first, last)?;
    let tuples = all_tuples(access.alloc, instants.as_slice())?;
    let rows = rows(access, store, join, tuples.as_slice(), instants.as_slice())?;
    limited(rows)
}
