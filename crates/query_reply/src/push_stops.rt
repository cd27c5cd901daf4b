//! The texts of why a query stopped on a store.
ghost use Rattle.std.specs.Prelude.{◌≡◌, ◌++◌, OnOk, string_bytes};
ghost use Rattle.query_reply.specs.Stops.{ahead_text, conflict_text, rival_text, stop_text};

use crate::push_refused;
use graph_value::{NoMemory, Oid};
use query_run::Stop;
use std::fmt::Write;
use txn_manager::Rival;

/// Appends why a query stopped, under its number: what refuses it, or the object, vertex or instant at which it stopped.
///
/// The error says that memory was wanting; a part of what is appended may then stand in the text.
pub fn push_stop(out: &mut String, why: &Stop) -> Result<(), NoMemory>
    ensures ok { OnOk result (string_bytes out.new ≡ string_bytes out.old ++ stop_text why.now) }
{
    match why {
        Stop::Eval(why) => push_refused(out, *why),
        Stop::Conflict(x, rival) => push_conflict(out, *x, *rival),
        Stop::HasEdges(v) => write!(out, "ERR 9 has edges {v}"),
        Stop::IdEnd => out.push_str("ERR 15 id end"),
        Stop::TimeAhead { t, start } => push_ahead(out, *t, *start),
    }
}

fn push_conflict(out: &mut String, x: Oid, rival: Rival) -> Result<(), NoMemory>
    ensures ok { OnOk result (string_bytes out.new
        ≡ string_bytes out.old ++ conflict_text x rival) }
{
    write!(out, "ERR 8 conflict {x} ")?;
    push_rival(out, rival)
}

fn push_rival(out: &mut String, rival: Rival) -> Result<(), NoMemory>
    ensures ok { OnOk result (string_bytes out.new ≡ string_bytes out.old ++ rival_text rival) }
{
    match rival {
        Rival::Running { start } => write!(out, "open {start}"),
        Rival::Committed { ts } => write!(out, "committed {ts}"),
    }
}

fn push_ahead(out: &mut String, t: u64, start: u64) -> Result<(), NoMemory>
    ensures ok { OnOk result (string_bytes out.new ≡ string_bytes out.old ++ ahead_text t start) }
{
    write!(out, "ERR 10 time ahead {t} start {start}")
}
