//! Errors, and the transactions that they end.
ghost use Rattle.std.specs.Prelude.{◌≡◌, ◌++◌, ℕ, List, None, Some, IfOk, string_bytes};
ghost use Rattle.session_core.specs.Replying.{GivesUp, IsError, Refuses, Tells};
ghost use Rattle.session_core.specs.Says.{Aborts, Acts};
ghost use Rattle.session_core.specs.Texts.{aborted_text};

use crate::NoMemory;
use crate::reply::{Answered, ReplyText};
use crate::texts::text_of;
use std::alloc::Global;
use world_model::{GraphStore, Txn};

/// Aborts the transaction with this start, where there is one. Takes no memory.
pub(crate) fn abort<S: GraphStore>(rt: &S::Rt, alloc: Global, store: &mut S, running: Option<u64>)
    requires { S.running store.old ≡ running }
    ensures says { Acts S.stands S.caller S.alone (Aborts running) store.old store.new }
    ensures ended { S.running store.new ≡ None }
{
    if let Some(start) = running {
        store.abort(rt, alloc, Txn::begun(start));
    }
}

fn with_suffix(alloc: Global, text: &str, suffix: &str) -> Result<String, NoMemory>
    ensures { IfOk result (λ t. string_bytes t ≡ text.now ++ suffix.now) }
{
    let mut text = text_of(alloc, text)?;
    text.push_str(suffix)?;
    Ok(text)
}

/// What stands behind an error, where a transaction with this start was open.
fn suffix_of(running: Option<u64>) -> &'static str
    ensures { result.now ≡ aborted_text running }
{
    match running {
        Some(_) => " (aborted)",
        None => "",
    }
}

/// The text of an error, where a transaction with this start was open.
fn error_text(alloc: Global, text: &str, running: Option<u64>) -> ReplyText
    ensures { IsError text.now running result }
{
    match with_suffix(alloc, text, suffix_of(running)) {
        Ok(text) => ReplyText::Made(text),
        Err(_) => ReplyText::wanting(running),
    }
}

/// Answers with an error, which ends the session's transaction.
pub(crate) fn refused<S: GraphStore>(
    rt: &S::Rt,
    alloc: Global,
    store: &mut S,
    running: Option<u64>,
    text: &str,
) -> Answered
    requires { S.running store.old ≡ running }
    ensures says { Acts S.stands S.caller S.alone (Refuses text.now running result)
        store.old store.new }
    ensures open { S.running store.new ≡ result.running }
{
    let text = error_text(alloc, text, running);
    abort(rt, alloc, store, running);
    Answered::plain(text, None)
}

/// Answers that memory was wanting, which ends the session's transaction. Takes no memory.
pub(crate) fn wanting<S: GraphStore>(
    rt: &S::Rt,
    alloc: Global,
    store: &mut S,
    running: Option<u64>,
) -> Answered
    requires { S.running store.old ≡ running }
    ensures says { (text : List ℕ) → Acts S.stands S.caller S.alone (Refuses text running result)
        store.old store.new }
    ensures open { S.running store.new ≡ result.running }
{
    abort(rt, alloc, store, running);
    Answered::wanting(running)
}

/// Answers with a text where there is one; the session goes on with its transaction.
pub(crate) fn told<S: GraphStore>(
    rt: &S::Rt,
    alloc: Global,
    store: &mut S,
    running: Option<u64>,
    text: Result<String, NoMemory>,
) -> Answered
    requires { S.running store.old ≡ running }
    ensures says { (wanted : List ℕ) → IfOk text (λ t. string_bytes t ≡ wanted) →
        Acts S.stands S.caller S.alone (Tells wanted running result) store.old store.new }
    ensures open { S.running store.new ≡ result.running }
{
    match text {
        Ok(text) => Answered::plain(ReplyText::Made(text), running),
        Err(_) => wanting(rt, alloc, store, running),
    }
}

/// Answers a query with an error; the transaction of its own is aborted.
pub(crate) fn given_up<S: GraphStore>(
    rt: &S::Rt,
    alloc: Global,
    store: &mut S,
    txn: Txn,
    text: &str,
) -> Answered
    requires { S.running store.old ≡ Some txn.start }
    ensures says { Acts S.stands S.caller S.alone (GivesUp text.now result) store.old store.new }
    ensures open { S.running store.new ≡ result.running }
{
    let text = error_text(alloc, text, None);
    store.abort(rt, alloc, txn);
    Answered::plain(text, None)
}

/// Answers a query that memory was wanting; the transaction of its own is aborted. Takes no memory.
pub(crate) fn wanting_in_own<S: GraphStore>(
    rt: &S::Rt,
    alloc: Global,
    store: &mut S,
    txn: Txn,
) -> Answered
    requires { S.running store.old ≡ Some txn.start }
    ensures says { (text : List ℕ) → Acts S.stands S.caller S.alone (GivesUp text result)
        store.old store.new }
    ensures open { S.running store.new ≡ result.running }
{
    store.abort(rt, alloc, txn);
    Answered::wanting(None)
}
