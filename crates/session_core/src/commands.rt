//! Commands.
ghost use Rattle.std.specs.Prelude.{◌≡◌};
ghost use Rattle.session_core.specs.Answering.{Quits, TellsMark, TellsStats, TellsSweep};
ghost use Rattle.session_core.specs.Says.{Acts};

use crate::refusing::{told, wanting};
use crate::reply::{Answered, Reply, ReplyText};
use crate::texts::{marked_text, stats_text, swept_text, text_of};
use collector::sweep_all;
use std::alloc::Global;
use world_model::GraphStore;

/// Answers `.now`.
pub(crate) fn now<S: GraphStore>(
    rt: &S::Rt,
    alloc: Global,
    store: &mut S,
    running: Option<u64>,
) -> Answered
    requires { S.running store.old ≡ running }
    ensures says { Acts S.stands S.caller S.alone (TellsMark running result) store.old store.new }
    ensures open { S.running store.new ≡ result.running }
{
    let marked = store.mark(rt, alloc);
    told(rt, alloc, store, running, marked_text(alloc, marked))
}

/// Answers `.stats`.
pub(crate) fn stats<S: GraphStore>(
    rt: &S::Rt,
    alloc: Global,
    store: &mut S,
    running: Option<u64>,
) -> Answered
    requires { S.running store.old ≡ running }
    ensures says { Acts S.stands S.caller S.alone (TellsStats running result) store.old store.new }
    ensures open { S.running store.new ≡ result.running }
{
    let stats = store.stats(rt, alloc);
    told(rt, alloc, store, running, stats_text(alloc, stats))
}

/// Answers `.sweep`.
pub(crate) fn sweep<S: GraphStore>(
    rt: &S::Rt,
    alloc: Global,
    store: &mut S,
    running: Option<u64>,
) -> Answered
    requires { S.running store.old ≡ running }
    ensures says { Acts S.stands S.caller S.alone (TellsSweep running result) store.old store.new }
    ensures open { S.running store.new ≡ result.running }
{
    match sweep_all(rt, alloc, store) {
        Ok(swept) => told(rt, alloc, store, running, swept_text(alloc, swept)),
        Err(_) => wanting(rt, alloc, store, running),
    }
}

/// Answers `.quit`.
pub(crate) fn quit<S: GraphStore>(
    rt: &S::Rt,
    alloc: Global,
    store: &mut S,
    running: Option<u64>,
) -> Answered
    requires { S.running store.old ≡ running }
    ensures says { Acts S.stands S.caller S.alone (Quits running result) store.old store.new }
    ensures open { S.running store.new ≡ result.running }
{
    match text_of(alloc, "OK bye") {
        Ok(text) => Answered {
            reply: Reply {
                text: ReplyText::Made(text),
                quit: true,
                committed: false,
            },
            running,
        },
        Err(_) => wanting(rt, alloc, store, running),
    }
}
