//! The words of transactions.
ghost use Rattle.std.specs.Prelude.{◌≡◌, None, Some};
ghost use Rattle.session_core.specs.Answering.{Begins, Finishes, RollsBack};
ghost use Rattle.session_core.specs.Says.{Acts};

use crate::refusing::{refused, wanting};
use crate::reply::{Answered, ReplyText};
use crate::texts::{begun_room, committed_room, not_begun_text, text_of, with_number};
use std::alloc::Global;
use world_model::{GraphStore, Txn};

fn begin_first<S: GraphStore>(rt: &S::Rt, alloc: Global, store: &mut S) -> Answered
    requires { S.running store.old ≡ None }
    ensures says { Acts S.stands S.caller S.alone (Begins None result) store.old store.new }
    ensures open { S.running store.new ≡ result.running }
{
    let Ok(room) = begun_room(alloc) else {
        return wanting(rt, alloc, store, None);
    };
    match store.begin(rt, alloc) {
        Ok(txn) => {
            let start = txn.end();
            let text = ReplyText::Made(with_number(room, start));
            Answered::plain(text, Some(start))
        }
        Err(why) => refused(rt, alloc, store, None, not_begun_text(why)),
    }
}

/// Answers BEGIN.
pub(crate) fn begin<S: GraphStore>(
    rt: &S::Rt,
    alloc: Global,
    store: &mut S,
    running: Option<u64>,
) -> Answered
    requires { S.running store.old ≡ running }
    ensures says { Acts S.stands S.caller S.alone (Begins running result) store.old store.new }
    ensures open { S.running store.new ≡ result.running }
{
    match running {
        None => begin_first(rt, alloc, store),
        Some(start) => refused(rt, alloc, store, Some(start), "ERR 13 already open"),
    }
}

fn commit_open<S: GraphStore>(rt: &S::Rt, alloc: Global, store: &mut S, start: u64) -> Answered
    requires { S.running store.old ≡ Some start }
    ensures says { Acts S.stands S.caller S.alone (Finishes (Some start) result)
        store.old store.new }
    ensures open { S.running store.new ≡ result.running }
{
    let Ok(room) = committed_room(alloc) else {
        return wanting(rt, alloc, store, Some(start));
    };
    let ts = store.commit(rt, alloc, Txn::begun(start));
    Answered::committed(with_number(room, ts))
}

/// Answers COMMIT.
pub(crate) fn commit<S: GraphStore>(
    rt: &S::Rt,
    alloc: Global,
    store: &mut S,
    running: Option<u64>,
) -> Answered
    requires { S.running store.old ≡ running }
    ensures says { Acts S.stands S.caller S.alone (Finishes running result) store.old store.new }
    ensures open { S.running store.new ≡ result.running }
{
    match running {
        None => refused(rt, alloc, store, None, "ERR 12 no transaction"),
        Some(start) => commit_open(rt, alloc, store, start),
    }
}

fn roll_back_open<S: GraphStore>(rt: &S::Rt, alloc: Global, store: &mut S, start: u64) -> Answered
    requires { S.running store.old ≡ Some start }
    ensures says { Acts S.stands S.caller S.alone (RollsBack (Some start) result)
        store.old store.new }
    ensures open { S.running store.new ≡ result.running }
{
    let Ok(text) = text_of(alloc, "OK rollback") else {
        return wanting(rt, alloc, store, Some(start));
    };
    store.abort(rt, alloc, Txn::begun(start));
    Answered::plain(ReplyText::Made(text), None)
}

/// Answers ROLLBACK.
pub(crate) fn roll_back<S: GraphStore>(
    rt: &S::Rt,
    alloc: Global,
    store: &mut S,
    running: Option<u64>,
) -> Answered
    requires { S.running store.old ≡ running }
    ensures says { Acts S.stands S.caller S.alone (RollsBack running result) store.old store.new }
    ensures open { S.running store.new ≡ result.running }
{
    match running {
        None => refused(rt, alloc, store, None, "ERR 12 no transaction"),
        Some(start) => roll_back_open(rt, alloc, store, start),
    }
}
