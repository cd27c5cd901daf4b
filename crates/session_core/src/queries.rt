//! Queries: inside the session's transaction, or in one of their own.
ghost use Rattle.std.specs.Prelude.{◌≡◌, IfOk, Ok, Err, None, Some, string_bytes};
ghost use Rattle.cypher_check.specs.Answer.{query_of};
ghost use Rattle.query_reply.specs.Faults as faults;
ghost use Rattle.query_reply.specs.Stops as stops;
ghost use Rattle.session_core.specs.Asking as spec;
ghost use Rattle.session_core.specs.Replying.{GivesUp, Refuses};
ghost use Rattle.session_core.specs.Says.{Acts};
ghost use Rattle.session_core.specs.Texts as texts;
ghost use Rattle.tt_clauses.specs.Between.{fault_of};

use crate::NoMemory;
use crate::refusing::{given_up, refused, told, wanting, wanting_in_own};
use crate::reply::Answered;
use crate::texts::{not_begun_text, range_text, rows_room, with_number};
use cypher_check::Checked;
use cypher_syntax::Time;
use graph_value::Text;
use query_reply::{Fault, ShownRow, examine, push_fault, push_stop};
use query_run::{Rows, Stop, run, snapshot};
use std::alloc::Global;
use tt_clauses::{between, range_fault};
use world_model::{GraphStore, Txn};

fn fault_text(alloc: Global, why: &Fault) -> Result<String, NoMemory>
    ensures { IfOk result (λ t. string_bytes t ≡ faults.fault_text why.now) }
{
    let mut text = String::new(alloc);
    push_fault(alloc, &mut text, why)?;
    Ok(text)
}

fn stop_text(alloc: Global, why: &Stop) -> Result<String, NoMemory>
    ensures { IfOk result (λ t. string_bytes t ≡ stops.stop_text why.now) }
{
    let mut text = String::new(alloc);
    push_stop(&mut text, why)?;
    Ok(text)
}

fn rows_text(alloc: Global, rows: &[ShownRow], at: u64) -> Result<String, NoMemory>
    ensures { IfOk result (λ t. string_bytes t ≡ texts.rows_text rows.now at) }
{
    let room = rows_room(alloc, rows)?;
    Ok(with_number(room, at))
}

/// A query is asked in its caller's open transaction, of what its time clause names.
fn evaluate<S: GraphStore>(
    rt: &S::Rt,
    alloc: Global,
    store: &mut S,
    txn: &Txn,
    checked: &Checked,
) -> Result<Rows, Stop>
    requires begun { S.running store.old ≡ Some txn.now.start }
    requires span { fault_of (query_of checked.now).time ≡ None }
    ensures says { Acts S.stands S.caller S.alone
        (spec.Runs (query_of checked.now) txn.now.start result) store.old store.new }
    ensures stays { S.running store.new ≡ S.running store.old }
{
    match checked.time() {
        Time::None => run(alloc, checked, rt, store, txn),
        Time::Snapshot(_) => snapshot(alloc, checked, rt, store, txn),
        Time::Between(..) => between(alloc, checked, rt, store, txn),
    }
}

/// A query in the session's transaction has stopped.
fn stopped<S: GraphStore>(
    rt: &S::Rt,
    alloc: Global,
    store: &mut S,
    start: u64,
    why: &Stop,
) -> Answered
    requires { S.running store.old ≡ Some start }
    ensures says { Acts S.stands S.caller S.alone
        (Refuses (stops.stop_text why.now) (Some start) result) store.old store.new }
    ensures open { S.running store.new ≡ result.running }
{
    match stop_text(alloc, why) {
        Ok(text) => refused(rt, alloc, store, Some(start), text.as_str()),
        Err(_) => wanting(rt, alloc, store, Some(start)),
    }
}

/// A query is asked in the session's transaction.
fn ask_inside<S: GraphStore>(
    rt: &S::Rt,
    alloc: Global,
    store: &mut S,
    start: u64,
    checked: &Checked,
) -> Answered
    requires begun { S.running store.old ≡ Some start }
    requires span { fault_of (query_of checked.now).time ≡ None }
    ensures says { Acts S.stands S.caller S.alone
        (spec.AsksInside (query_of checked.now) start result) store.old store.new }
    ensures open { S.running store.new ≡ result.running }
{
    let txn = Txn::begun(start);
    let ran = evaluate(rt, alloc, store, &txn, checked);
    let _start = txn.end();
    match ran {
        Ok(rows) => {
            let text = rows_text(alloc, rows.as_slice(), start);
            told(rt, alloc, store, Some(start), text)
        }
        Err(why) => stopped(rt, alloc, store, start, &why),
    }
}

/// A query in a transaction of its own has stopped.
fn stopped_in_own<S: GraphStore>(
    rt: &S::Rt,
    alloc: Global,
    store: &mut S,
    txn: Txn,
    why: &Stop,
) -> Answered
    requires { S.running store.old ≡ Some txn.start }
    ensures says { Acts S.stands S.caller S.alone (GivesUp (stops.stop_text why.now) result)
        store.old store.new }
    ensures open { S.running store.new ≡ result.running }
{
    match stop_text(alloc, why) {
        Ok(text) => given_up(rt, alloc, store, txn, text.as_str()),
        Err(_) => wanting_in_own(rt, alloc, store, txn),
    }
}

/// A query in a transaction of its own has these rows.
fn commit_rows<S: GraphStore>(
    rt: &S::Rt,
    alloc: Global,
    store: &mut S,
    txn: Txn,
    rows: &Rows,
) -> Answered
    requires { S.running store.old ≡ Some txn.start }
    ensures says { Acts S.stands S.caller S.alone (spec.ToldOutside result (Ok rows.now))
        store.old store.new }
    ensures open { S.running store.new ≡ result.running }
{
    match rows_room(alloc, rows.as_slice()) {
        Ok(room) => {
            let ts = store.commit(rt, alloc, txn);
            Answered::committed(with_number(room, ts))
        }
        Err(_) => wanting_in_own(rt, alloc, store, txn),
    }
}

fn run_in_own<S: GraphStore>(
    rt: &S::Rt,
    alloc: Global,
    store: &mut S,
    txn: Txn,
    checked: &Checked,
) -> Answered
    requires begun { S.running store.old ≡ Some txn.start }
    requires span { fault_of (query_of checked.now).time ≡ None }
    ensures says { Acts S.stands S.caller S.alone
        (spec.RunsOutside (query_of checked.now) result txn.start)
        store.old store.new }
    ensures open { S.running store.new ≡ result.running }
{
    match evaluate(rt, alloc, store, &txn, checked) {
        Ok(rows) => commit_rows(rt, alloc, store, txn, &rows),
        Err(why) => stopped_in_own(rt, alloc, store, txn, &why),
    }
}

/// A query is asked in a transaction of its own.
fn ask_outside<S: GraphStore>(
    rt: &S::Rt,
    alloc: Global,
    store: &mut S,
    checked: &Checked,
) -> Answered
    requires begun { S.running store.old ≡ None }
    requires span { fault_of (query_of checked.now).time ≡ None }
    ensures says { Acts S.stands S.caller S.alone
        (spec.Asks (query_of checked.now) None result) store.old store.new }
    ensures open { S.running store.new ≡ result.running }
{
    match store.begin(rt, alloc) {
        Ok(txn) => run_in_own(rt, alloc, store, txn, checked),
        Err(why) => refused(rt, alloc, store, None, not_begun_text(why)),
    }
}

fn ask<S: GraphStore>(
    rt: &S::Rt,
    alloc: Global,
    store: &mut S,
    running: Option<u64>,
    checked: &Checked,
) -> Answered
    requires begun { S.running store.old ≡ running }
    requires span { fault_of (query_of checked.now).time ≡ None }
    ensures says { Acts S.stands S.caller S.alone
        (spec.Asks (query_of checked.now) running result) store.old store.new }
    ensures open { S.running store.new ≡ result.running }
{
    match running {
        Some(start) => ask_inside(rt, alloc, store, start, checked),
        None => ask_outside(rt, alloc, store, checked),
    }
}

/// A query whose span is no span: its first instant is the greater one.
fn out_of_range<S: GraphStore>(
    rt: &S::Rt,
    alloc: Global,
    store: &mut S,
    running: Option<u64>,
    first: u64,
    last: u64,
) -> Answered
    requires { S.running store.old ≡ running }
    ensures says { Acts S.stands S.caller S.alone
        (Refuses (texts.range_text first last) running result) store.old store.new }
    ensures open { S.running store.new ≡ result.running }
{
    match range_text(alloc, first, last) {
        Ok(text) => refused(rt, alloc, store, running, text.as_str()),
        Err(_) => wanting(rt, alloc, store, running),
    }
}

fn answer_checked<S: GraphStore>(
    rt: &S::Rt,
    alloc: Global,
    store: &mut S,
    running: Option<u64>,
    checked: &Checked,
) -> Answered
    requires { S.running store.old ≡ running }
    ensures says { Acts S.stands S.caller S.alone
        (spec.AnswersQuery (fault_of (query_of checked.now).time)
        (query_of checked.now) running result) store.old store.new }
    ensures open { S.running store.new ≡ result.running }
{
    match range_fault(checked) {
        Some((first, last)) => out_of_range(rt, alloc, store, running, first, last),
        None => ask(rt, alloc, store, running, checked),
    }
}

fn faulty<S: GraphStore>(
    rt: &S::Rt,
    alloc: Global,
    store: &mut S,
    running: Option<u64>,
    why: &Fault,
) -> Answered
    requires { S.running store.old ≡ running }
    ensures says { Acts S.stands S.caller S.alone
        (Refuses (faults.fault_text why.now) running result) store.old store.new }
    ensures open { S.running store.new ≡ result.running }
{
    match fault_text(alloc, why) {
        Ok(text) => refused(rt, alloc, store, running, text.as_str()),
        Err(_) => wanting(rt, alloc, store, running),
    }
}

fn answer_text<S: GraphStore>(
    rt: &S::Rt,
    alloc: Global,
    store: &mut S,
    running: Option<u64>,
    statement: &Text,
) -> Answered
    requires { S.running store.old ≡ running }
    ensures says { Acts S.stands S.caller S.alone (spec.Queries statement.now running result)
        store.old store.new }
    ensures open { S.running store.new ≡ result.running }
{
    match examine(alloc, statement) {
        Ok(checked) => answer_checked(rt, alloc, store, running, &checked),
        Err(why) => faulty(rt, alloc, store, running, &why),
    }
}

/// Answers a query.
pub(crate) fn query<S: GraphStore>(
    rt: &S::Rt,
    alloc: Global,
    store: &mut S,
    running: Option<u64>,
    statement: &str,
) -> Answered
    requires { S.running store.old ≡ running }
    ensures says { Acts S.stands S.caller S.alone (spec.Queries statement.now running result)
        store.old store.new }
    ensures open { S.running store.new ≡ result.running }
{
    match Text::from_str(alloc, statement) {
        Ok(statement) => answer_text(rt, alloc, store, running, &statement),
        Err(_) => wanting(rt, alloc, store, running),
    }
}
