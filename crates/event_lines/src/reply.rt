ghost use Rattle.std.specs.Prelude.{◌≡◌, ◌++◌, OnOk, string_bytes};
ghost use Rattle.graph_value.specs.Id.{oid_text};
ghost use Rattle.world_model.specs.Replies.{IsNumberAsked, IsVersionOf};
ghost use Rattle.world_model.specs.Reply.{reply_of};
ghost use Rattle.event_lines.specs.Reply.{answer_text, bad_line, caller_text, found_text, installed_text, lifted_text, marked_text, numbered, refused_text, rival_text, stats_text, version_text, wrote_text};
ghost use Rattle.event_lines.specs.Told.{IsPlain, IsToldTo, told_text};

use crate::NoMemory;
use crate::told::Told;
use graph_reader::push_object_json;
use graph_record::Object;
use graph_value::{EdgeId, Oid, VertexId};
use std::alloc::Global;
use std::fmt::Write;
use txn_manager::Rival;
use world_model::{Answer, Asked, Kind, Marked, Refused, Stats, Wrote};

/// Appends the line that tells a caller what it asked for. `asked` is the object whose version is told, or the kind of
/// the object whose number it is; nothing else needs it.
///
/// The error says that memory was wanting; a part of the line may then stand in the text.
pub fn push_reply(
    alloc: Global,
    out: &mut String,
    caller: u64,
    asked: Asked,
    told: &Told,
) -> Result<(), NoMemory>
    requires { IsToldTo asked told.now }
    ensures ok { OnOk result (string_bytes out.new ≡ string_bytes out.old
        ++ caller_text caller (told_text asked told.now)) }
{
    write!(out, "{caller} ")?;
    push_told(alloc, out, asked, told)?;
    out.push_str("\n")
}

/// Appends the line that answers what is no request.
///
/// The error says that memory was wanting.
pub fn push_bad_line(out: &mut String) -> Result<(), NoMemory>
    ensures ok { OnOk result (string_bytes out.new ≡ string_bytes out.old ++ bad_line) }
{
    out.push_str("- refused 12 bad line\n")
}

fn push_told(alloc: Global, out: &mut String, asked: Asked, told: &Told) -> Result<(), NoMemory>
    requires { IsToldTo asked told.now }
    ensures ok { OnOk result (string_bytes out.new ≡ string_bytes out.old
        ++ told_text asked told.now) }
{
    match told {
        Told::Answer(answer) => push_answer(out, asked, answer),
        Told::Version(object) => push_version(alloc, out, asked, object),
        Told::Lifted {
            x,
            cut,
            mark,
            deltas,
        } => push_lifted(out, *x, *cut, *mark, *deltas),
        Told::Installed { x, mark } => push_installed(out, *x, *mark),
        Told::NoPiece => out.push_str("refused 13 no piece"),
    }
}

fn push_answer(out: &mut String, asked: Asked, answer: &Answer) -> Result<(), NoMemory>
    requires { IsPlain asked answer.now }
    ensures ok { OnOk result (string_bytes out.new ≡ string_bytes out.old
        ++ answer_text asked (reply_of answer.now)) }
{
    match answer {
        Answer::Begun(start) => write!(out, "begin {start}"),
        Answer::Id(id) => push_found(out, asked, *id),
        Answer::Version(_) => unreachable!(),
        Answer::Wrote(what) => push_wrote(out, *what),
        Answer::Committed(ts) => write!(out, "commit {ts}"),
        Answer::Aborted => out.push_str("abort"),
        Answer::Marked(marked) => push_marked(out, *marked),
        Answer::Lifted(lifted) => push_lifted(
            out,
            lifted.x,
            lifted.cut,
            lifted.mark,
            lifted.tail.deltas.len(),
        ),
        Answer::Installed => out.push_str("installed"),
        Answer::NotInstalled(_) => push_refused(out, Refused::NoMemory),
        Answer::Stats(stats) => push_stats(out, *stats),
        Answer::Refused(why) => push_refused(out, *why),
    }
}

fn push_version(
    alloc: Global,
    out: &mut String,
    asked: Asked,
    object: &Object,
) -> Result<(), NoMemory>
    requires { IsVersionOf asked object.now }
    ensures ok { OnOk result (string_bytes out.new ≡ string_bytes out.old
        ++ version_text asked object.now) }
{
    match (asked, object) {
        (_, Object::Dead) => out.push_str("dead"),
        (Asked::Version(x), object) => push_object_json(alloc, out, x, object),
        (Asked::Nothing | Asked::Number(_), _) => unreachable!(),
    }
}

fn push_found(out: &mut String, asked: Asked, id: Option<u64>) -> Result<(), NoMemory>
    requires { IsNumberAsked asked }
    ensures ok { OnOk result (string_bytes out.new ≡ string_bytes out.old ++ found_text asked id) }
{
    match (asked, id) {
        (_, None) => out.push_str("none"),
        (Asked::Number(kind), Some(n)) => push_oid(out, numbered(kind, n)),
        (Asked::Nothing | Asked::Version(_), _) => unreachable!(),
    }
}

/// The object of this kind under a number.
fn numbered(kind: Kind, n: u64) -> Oid
    ensures { result ≡ numbered kind n }
{
    match kind {
        Kind::Vertex => Oid::Vertex(VertexId(n)),
        Kind::Edge => Oid::Edge(EdgeId(n)),
    }
}

fn push_marked(out: &mut String, marked: Marked) -> Result<(), NoMemory>
    ensures ok { OnOk result (string_bytes out.new ≡ string_bytes out.old ++ marked_text marked) }
{
    let mark = marked.mark;
    let clock = marked.clock;
    write!(out, "mark {mark} clock {clock}")
}

fn push_lifted(out: &mut String, x: Oid, cut: u64, mark: u64, deltas: u64) -> Result<(), NoMemory>
    ensures ok { OnOk result (string_bytes out.new ≡ string_bytes out.old
        ++ lifted_text x cut mark deltas) }
{
    out.push_str("lifted ")?;
    push_oid(out, x)?;
    write!(out, " cut {cut} mark {mark} deltas {deltas}")
}

fn push_installed(out: &mut String, x: Oid, mark: u64) -> Result<(), NoMemory>
    ensures ok { OnOk result (string_bytes out.new ≡ string_bytes out.old
        ++ installed_text x mark) }
{
    out.push_str("installed ")?;
    push_oid(out, x)?;
    write!(out, " cut {mark}")
}

fn push_stats(out: &mut String, stats: Stats) -> Result<(), NoMemory>
    ensures ok { OnOk result (string_bytes out.new ≡ string_bytes out.old ++ stats_text stats) }
{
    let chain = stats.chain;
    let history = stats.history;
    let blocks = stats.blocks;
    write!(out, "chain {chain} history {history} blocks {blocks}")
}

fn push_wrote(out: &mut String, what: Wrote) -> Result<(), NoMemory>
    ensures ok { OnOk result (string_bytes out.new ≡ string_bytes out.old ++ wrote_text what) }
{
    match what {
        Wrote::Done => out.push_str("done"),
        Wrote::Unchanged => out.push_str("unchanged"),
        Wrote::Vertex(id) => push_oid(out, Oid::Vertex(id)),
        Wrote::Edge(id) => push_oid(out, Oid::Edge(id)),
    }
}

fn push_refused(out: &mut String, why: Refused) -> Result<(), NoMemory>
    ensures ok { OnOk result (string_bytes out.new ≡ string_bytes out.old ++ refused_text why) }
{
    match why {
        Refused::NoTxn => out.push_str("refused 1 no transaction"),
        Refused::AlreadyOpen => out.push_str("refused 2 already open"),
        Refused::Missing(x) => {
            out.push_str("refused 3 missing ")?;
            push_oid(out, x)
        }
        Refused::Conflict(x, rival) => push_conflict(out, x, rival),
        Refused::HasEdges(id) => push_has_edges(out, id),
        Refused::TimeAhead { t, start } => push_time_ahead(out, t, start),
        Refused::ClockEnd => out.push_str("refused 7 clock end"),
        Refused::Stale { cut } => write!(out, "refused 8 stale cut {cut}"),
        Refused::TooMany => out.push_str("refused 9 too many"),
        Refused::IdEnd => out.push_str("refused 10 id end"),
        Refused::NoMemory => out.push_str("refused 11 no memory"),
    }
}

fn push_conflict(out: &mut String, x: Oid, rival: Rival) -> Result<(), NoMemory>
    ensures ok { OnOk result (string_bytes out.new ≡ string_bytes out.old
        ++ refused_text (Refused.Conflict x rival)) }
{
    out.push_str("refused 4 conflict ")?;
    push_oid(out, x)?;
    out.push_str(" ")?;
    push_rival(out, rival)
}

fn push_has_edges(out: &mut String, id: VertexId) -> Result<(), NoMemory>
    ensures ok { OnOk result (string_bytes out.new ≡ string_bytes out.old
        ++ refused_text (Refused.HasEdges id)) }
{
    out.push_str("refused 5 ")?;
    out.push_str("has edges ")?;
    push_oid(out, Oid::Vertex(id))
}

fn push_time_ahead(out: &mut String, t: u64, start: u64) -> Result<(), NoMemory>
    ensures ok { OnOk result (string_bytes out.new ≡ string_bytes out.old
        ++ refused_text (Refused.TimeAhead t start)) }
{
    out.push_str("refused 6 ")?;
    out.push_str("time ")?;
    write!(out, "ahead {t} start {start}")
}

fn push_rival(out: &mut String, rival: Rival) -> Result<(), NoMemory>
    ensures ok { OnOk result (string_bytes out.new ≡ string_bytes out.old ++ rival_text rival) }
{
    match rival {
        Rival::Running { start } => write!(out, "open {start}"),
        Rival::Committed { ts } => write!(out, "committed {ts}"),
    }
}

fn push_oid(out: &mut String, x: Oid) -> Result<(), NoMemory>
    ensures ok { OnOk result (string_bytes out.new ≡ string_bytes out.old ++ oid_text x) }
{
    write!(out, "{x}")
}
