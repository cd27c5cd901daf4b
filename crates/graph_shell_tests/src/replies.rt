ghost use Rattle.event_lines.specs.Told.{IsPlain, IsToldTo};
ghost use Rattle.world_model.specs.declared.event.Asked.TheVariants as asked;

use event_lines::{NoMemory, Told, push_reply};
use graph_record::{Object, VertexRecord};
use graph_value::{EdgeId, Oid, VertexId};
use std::alloc::Global;
use std::test::Fail;
use txn_manager::Rival;
use world_model::{Answer, Asked, Kind, Marked, Refused, Stats, Wrote};

/// An answer whose event asks to be told nothing else.
#[derive(Clone, Copy)]
enum Said {
    Refused(Refused),
    Wrote(Wrote),
    Begun(u64),
    Committed(u64),
    Aborted,
    Marked(Marked),
    Stats(Stats),
}

/// An answer, and its line to caller 1.
type Row = (Said, &'static str);

/// What is found among the objects of a kind, and its line to caller 1.
type FoundRow = (Kind, Option<u64>, &'static str);

const V0: Oid = Oid::Vertex(VertexId(0));

const E12: Oid = Oid::Edge(EdgeId(12));

static REFUSALS: [Row; 12] = [
    (
        Said::Refused(Refused::NoTxn),
        "1 refused 1 no transaction\n",
    ),
    (
        Said::Refused(Refused::AlreadyOpen),
        "1 refused 2 already open\n",
    ),
    (
        Said::Refused(Refused::Missing(V0)),
        "1 refused 3 missing v0\n",
    ),
    (
        Said::Refused(Refused::Conflict(V0, Rival::Running { start: 4 })),
        "1 refused 4 conflict v0 open 4\n",
    ),
    (
        Said::Refused(Refused::Conflict(E12, Rival::Committed { ts: 9 })),
        "1 refused 4 conflict e12 committed 9\n",
    ),
    (
        Said::Refused(Refused::HasEdges(VertexId(7))),
        "1 refused 5 has edges v7\n",
    ),
    (
        Said::Refused(Refused::TimeAhead { t: 3, start: 2 }),
        "1 refused 6 time ahead 3 start 2\n",
    ),
    (Said::Refused(Refused::ClockEnd), "1 refused 7 clock end\n"),
    (
        Said::Refused(Refused::Stale { cut: 5 }),
        "1 refused 8 stale cut 5\n",
    ),
    (Said::Refused(Refused::TooMany), "1 refused 9 too many\n"),
    (Said::Refused(Refused::IdEnd), "1 refused 10 id end\n"),
    (Said::Refused(Refused::NoMemory), "1 refused 11 no memory\n"),
];

static ANSWERS: [Row; 9] = [
    (Said::Wrote(Wrote::Done), "1 done\n"),
    (Said::Wrote(Wrote::Unchanged), "1 unchanged\n"),
    (Said::Wrote(Wrote::Vertex(VertexId(5))), "1 v5\n"),
    (Said::Wrote(Wrote::Edge(EdgeId(6))), "1 e6\n"),
    (Said::Begun(7), "1 begin 7\n"),
    (Said::Committed(8), "1 commit 8\n"),
    (Said::Aborted, "1 abort\n"),
    (
        Said::Marked(Marked {
            mark: 3,
            clock: 9,
            vertices: 1,
            edges: 2,
        }),
        "1 mark 3 clock 9\n",
    ),
    (
        Said::Stats(Stats {
            chain: 1,
            history: 3,
            blocks: 2,
        }),
        "1 chain 1 history 3 blocks 2\n",
    ),
];

static FOUND: [FoundRow; 4] = [
    (Kind::Vertex, Some(3), "1 v3\n"),
    (Kind::Edge, Some(1), "1 e1\n"),
    (Kind::Vertex, None, "1 none\n"),
    (Kind::Edge, None, "1 none\n"),
];

fn answer_of(said: Said) -> Answer
    ensures { IsPlain asked.Nothing result }
{
    match said {
        Said::Refused(why) => Answer::Refused(why),
        Said::Wrote(what) => Answer::Wrote(what),
        Said::Begun(start) => Answer::Begun(start),
        Said::Committed(ts) => Answer::Committed(ts),
        Said::Aborted => Answer::Aborted,
        Said::Marked(marked) => Answer::Marked(marked),
        Said::Stats(stats) => Answer::Stats(stats),
    }
}

/// Whether what is told is this line.
fn is_line(alloc: Global, asked: Asked, told: &Told, wanted: &str) -> Result<bool, NoMemory>
    requires { IsToldTo asked told.now }
{
    let mut out = String::new(alloc);
    push_reply(alloc, &mut out, 1, asked, told)?;
    Ok(out.as_str() == wanted)
}

fn is_printed(alloc: Global, row: &Row) -> Result<bool, NoMemory> {
    let told = Told::Answer(answer_of(row.0));
    is_line(alloc, Asked::Nothing, &told, row.1)
}

fn is_found_printed(alloc: Global, row: &FoundRow) -> Result<bool, NoMemory> {
    let told = Told::Answer(Answer::Id(row.1));
    is_line(alloc, Asked::Number(row.0), &told, row.2)
}

fn is_dead_printed(alloc: Global) -> Result<bool, NoMemory> {
    let told = Told::Version(Object::Dead);
    is_line(alloc, Asked::Version(V0), &told, "1 dead\n")
}

fn is_empty_printed(alloc: Global, wanted: &str) -> Result<bool, NoMemory> {
    let told = Told::Version(Object::Vertex(VertexRecord::empty(alloc)));
    is_line(alloc, Asked::Version(V0), &told, wanted)
}

fn is_lift_printed(alloc: Global, wanted: &str) -> Result<bool, NoMemory> {
    let told = Told::Lifted {
        x: E12,
        cut: 2,
        mark: 5,
        deltas: 3,
    };
    is_line(alloc, Asked::Nothing, &told, wanted)
}

fn is_installation_printed(alloc: Global, wanted: &str) -> Result<bool, NoMemory> {
    let told = Told::Installed { x: V0, mark: 5 };
    is_line(alloc, Asked::Nothing, &told, wanted)
}

fn is_no_piece_printed(alloc: Global, wanted: &str) -> Result<bool, NoMemory> {
    is_line(alloc, Asked::Nothing, &Told::NoPiece, wanted)
}

/// The first of the lines that its answer isn't printed as.
fn first_unprinted(alloc: Global, rows: &[Row]) -> Result<Option<&'static str>, NoMemory> {
    for row in rows {
        if !is_printed(alloc, row)? {
            return Ok(Some(row.1));
        }
    }
    Ok(None)
}

#[test]
fn prints_refusals(rt: HostRuntime) -> Result<(), Fail> {
    assert_eq!(rt; first_unprinted(rt.alloc(), &REFUSALS)?, None);
    Ok(())
}

#[test]
fn prints_answers(rt: HostRuntime) -> Result<(), Fail> {
    assert_eq!(rt; first_unprinted(rt.alloc(), &ANSWERS)?, None);
    Ok(())
}

#[test]
fn prints_found_objects(rt: HostRuntime) -> Result<(), Fail> {
    for row in &FOUND {
        assert!(rt; is_found_printed(rt.alloc(), row)?, "{}", row.2);
    }
    Ok(())
}

#[test]
fn prints_versions(rt: HostRuntime) -> Result<(), Fail> {
    assert!(rt; is_dead_printed(rt.alloc())?);
    let wanted = "1 {\"id\":0,\"ins\":[],\"labels\":[],\"outs\":[],\"properties\":{}}\n";
    assert!(rt; is_empty_printed(rt.alloc(), wanted)?);
    Ok(())
}

#[test]
fn prints_pieces(rt: HostRuntime) -> Result<(), Fail> {
    assert!(rt; is_lift_printed(rt.alloc(), "1 lifted e12 cut 2 mark 5 deltas 3\n")?);
    assert!(rt; is_installation_printed(rt.alloc(), "1 installed v0 cut 5\n")?);
    assert!(rt; is_no_piece_printed(rt.alloc(), "1 refused 13 no piece\n")?);
    Ok(())
}
