//! A session: the transaction that it has open, and lines answered one after the other.
ghost use Rattle.std.specs.Prelude.{◌≡◌, None};
ghost use Rattle.session_core.specs.Answering.{Answers, AnswersLine, AnswersLong, AnswersStatement, answered, running_of};
ghost use Rattle.session_core.specs.Says.{Aborts, Acts};
ghost use Rattle.session_core.specs.Statement.{kind_of};

use crate::commands::{now, quit, stats, sweep};
use crate::queries::query;
use crate::refusing::{abort, refused};
use crate::reply::{Answered, Reply};
use crate::statement::{Kind, kind_of, statement_of};
use crate::transactions::{begin, commit, roll_back};
use std::alloc::Global;
use std::str;
use world_model::GraphStore;

fn answer_text<S: GraphStore>(
    rt: &S::Rt,
    alloc: Global,
    store: &mut S,
    running: Option<u64>,
    statement: &str,
) -> Answered
    requires { S.running store.old ≡ running }
    ensures says { Acts S.stands S.caller S.alone
        (Answers (kind_of statement.now) statement.now running result) store.old store.new }
    ensures open { S.running store.new ≡ result.running }
{
    match kind_of(statement) {
        Kind::Begin => begin(rt, alloc, store, running),
        Kind::Commit => commit(rt, alloc, store, running),
        Kind::Rollback => roll_back(rt, alloc, store, running),
        Kind::Now => now(rt, alloc, store, running),
        Kind::Stats => stats(rt, alloc, store, running),
        Kind::Sweep => sweep(rt, alloc, store, running),
        Kind::Quit => quit(rt, alloc, store, running),
        Kind::Unknown => refused(rt, alloc, store, running, "ERR 1 unknown command"),
        Kind::Query => query(rt, alloc, store, running, statement),
    }
}

fn answer_statement<S: GraphStore>(
    rt: &S::Rt,
    alloc: Global,
    store: &mut S,
    running: Option<u64>,
    statement: &[u8],
) -> Answered
    requires { S.running store.old ≡ running }
    ensures says { Acts S.stands S.caller S.alone (AnswersStatement statement.now running result)
        store.old store.new }
    ensures open { S.running store.new ≡ result.running }
{
    match str::from_utf8(statement) {
        Ok(statement) => answer_text(rt, alloc, store, running, statement),
        Err(_) => refused(rt, alloc, store, running, "ERR 1 not UTF-8"),
    }
}

/// A session of a store's caller. It can't be let go: `end` or `paused` takes it.
#[derive(Debug)]
pub struct Session {
    running: Option<u64>,
}

impl Session {
    /// A session that has no transaction open. Takes no memory.
    pub fn new() -> Session
        ensures { running_of result ≡ None }
    {
        Session { running: None }
    }

    /// A session that was paused, with the start of its open transaction. Takes no memory.
    pub fn resumed(running: Option<u64>) -> Session
        ensures { running_of result ≡ running }
    {
        Session { running }
    }

    /// Sets the session aside. What is left of it is the start of its open transaction. Takes no memory.
    pub fn paused(self) -> Option<u64>
        ensures { result ≡ running_of self }
    {
        let Session { running } = self;
        running
    }

    /// Answers a line, given without its line end and carriage return. The session's transaction is the one that the
    /// store's caller has open.
    ///
    /// What is sent to the store, and the reply, are those of the line. An error aborts the session's transaction, and no
    /// row stands before it; where memory was wanting the reply is `ERR 16 no memory`.
    pub fn answer<S: GraphStore>(
        &mut self,
        rt: &S::Rt,
        alloc: Global,
        line: &[u8],
        store: &mut S,
    ) -> Reply
        requires { S.running store.old ≡ running_of self.old }
        ensures says { Acts S.stands S.caller S.alone
            (AnswersLine line.now (running_of self.old) (answered result (running_of self.new)))
            store.old store.new }
        ensures open { S.running store.new ≡ running_of self.new }
    {
        let Answered { reply, running } = answer_statement(
            rt,
            alloc,
            store,
            self.running,
            statement_of(line),
        );
        self.running = running;
        reply
    }

    /// Answers a line that is too long. The session's transaction is aborted.
    pub fn too_long<S: GraphStore>(&mut self, rt: &S::Rt, alloc: Global, store: &mut S) -> Reply
        requires { S.running store.old ≡ running_of self.old }
        ensures says { Acts S.stands S.caller S.alone
            (AnswersLong (running_of self.old) (answered result (running_of self.new)))
            store.old store.new }
        ensures open { S.running store.new ≡ running_of self.new }
    {
        let Answered { reply, running } = refused(
            rt,
            alloc,
            store,
            self.running,
            "ERR 1 line too long",
        );
        self.running = running;
        reply
    }

    /// Ends the session; its open transaction is aborted. Takes no memory.
    pub fn end<S: GraphStore>(self, rt: &S::Rt, alloc: Global, store: &mut S)
        requires { S.running store.old ≡ running_of self }
        ensures says { Acts S.stands S.caller S.alone (Aborts (running_of self))
            store.old store.new }
        ensures ended { S.running store.new ≡ None }
    {
        let Session { running } = self;
        abort(rt, alloc, store, running);
    }
}
