use crate::answer_rows::answer_rows;
use crate::sample::sample;
use graph_reader::Graph;
use graph_value::NoMemory;
use std::alloc::Global;
use std::test::Fail;

/// A line, and the lines of its answer.
type Row = (&'static str, &'static str);

static ROWS: [Row; 21] = [
    (
        "MATCH (a:Person {age: 30}) RETURN a, a.name AS name",
        "[{\"id\":0,\"labels\":[\"Person\"],\"properties\":{\"age\":30,\"name\":\"Ann\",\
         \"tags\":[\"chess\",\"tea\"]}},\"Ann\"]\nOK 1",
    ),
    (
        "MATCH ()-[e:LIVES]->() RETURN e",
        "[{\"from\":0,\"id\":4,\"properties\":{},\"to\":3,\"type\":\"LIVES\"}]\n\
         [{\"from\":1,\"id\":5,\"properties\":{\"since\":2018},\"to\":2,\"type\":\"LIVES\"}]\nOK 2",
    ),
    // two edges between the same two, and one back
    (
        "MATCH (a)-[k:KNOWS]->(b) WHERE a <> b RETURN a.name, id(k), b.name",
        "[\"Ann\",0,\"Bo\"]\n[\"Ann\",1,\"Bo\"]\n[\"Bo\",2,\"Ann\"]\nOK 3",
    ),
    // a loop has both directions at once
    ("MATCH (a)-[k]-(a) RETURN id(a), id(k)", "[2,3]\nOK 1"),
    (
        "MATCH (a:Town) OPTIONAL MATCH (a)-[k:KNOWS]->() RETURN a.name, k.since",
        "[\"Cem\",2015]\n[\"Dar\",null]\nOK 2",
    ),
    (
        "MATCH (a:Person) UNWIND a.tags AS t RETURN t ORDER BY t DESC",
        "[\"tea\"]\n[\"chess\"]\nOK 2",
    ),
    (
        "MATCH (a)-[:KNOWS]->() WITH a.name AS n, count(*) AS c WHERE c > 1 RETURN *",
        "[\"Ann\",2]\nOK 1",
    ),
    ("MATCH (a) RETURN count(a.age), sum(a.age)", "[3,755]\nOK 1"),
    (
        "MATCH (a:Person) RETURN DISTINCT a.age IS NULL AS none",
        "[false]\n[true]\nOK 2",
    ),
    ("MATCH (a:Nobody) RETURN a", "OK 0"),
    (
        "UNWIND [3,1,2] AS x RETURN x ORDER BY x SKIP 1 LIMIT 1",
        "[2]\nOK 1",
    ),
    ("RETURN 'a' + 1", "ERR 5 type"),
    ("RETURN 9223372036854775807 + 1", "ERR 6 overflow"),
    ("UNWIND [1, 0] AS x RETURN 1 / x", "ERR 7 zero divisor"),
    ("RETURN range(1, 2000000)", "ERR 14 too large"),
    ("RETURN", "ERR 2 syntax at 6"),
    ("RETURN x", "ERR 3 unbound \"x\""),
    ("RETURN 1 AS x, 2 AS x", "ERR 4 shape redeclared \"x\""),
    ("CREATE (a)", "ERR 4 shape write"),
    (
        "MATCH (a) WITH a MATCH (b) SET b.k = 1 RETURN a",
        "ERR 4 shape write",
    ),
    ("MATCH (a) RETURN a TT SNAPSHOT 1", "ERR 4 shape TT clause"),
];

fn is_answered(
    alloc: Global,
    graph: &mut Graph,
    line: &str,
    wanted: &str,
) -> Result<bool, NoMemory> {
    let mut reply = String::new(alloc);
    answer_rows(alloc, line.as_bytes(), graph, &mut reply)?;
    Ok(reply.as_str() == wanted)
}

/// The first line that is answered otherwise.
fn first_wrong(alloc: Global) -> Result<Option<&'static str>, NoMemory> {
    let Some(mut graph) = sample(alloc)? else {
        return Ok(Some("no graph"));
    };
    for (line, wanted) in ROWS.iter() {
        if !is_answered(alloc, &mut graph, line, wanted)? {
            return Ok(Some(*line));
        }
    }
    Ok(None)
}

#[test]
fn rows_of_the_small_graph(rt: HostRuntime) -> Result<(), Fail> {
    let wrong = first_wrong(rt.alloc())?;
    assert!(rt; wrong.is_none(), "{wrong:?}");
    Ok(())
}
