//! Statements of one transaction each, in order, with what they come to.

/// A statement, and its rows parted by spaces, or `!` and why it stopped.
pub type Statement = (&'static str, &'static str);

/// Each clause sees what was written before it, in this statement and in earlier ones.
pub static WRITES: [Statement; 14] = [
    ("RETURN 1 + 1", "[2]"),
    ("CREATE (a:P {k: 1})", ""),
    (
        "MATCH (n:P) RETURN n",
        r#"[{"id":0,"labels":["P"],"properties":{"k":1}}]"#,
    ),
    ("CREATE (b:P {k: 2}) RETURN id(b), b.k", "[1,2]"),
    (
        "MATCH (n:P) WITH n ORDER BY n.k DESC CREATE (n)-[e:T {w: n.k}]->(m:Q) RETURN id(n), id(e), id(m), e.w",
        "[1,0,2,2] [0,1,3,1]",
    ),
    (
        "MATCH (n:P)-[e]->(m) RETURN id(n), type(e), id(m)",
        r#"[0,"T",3] [1,"T",2]"#,
    ),
    (
        "MATCH (n:P) SET n.k = n.k + 10, n:R RETURN n.k, n:R",
        "[11,true] [12,true]",
    ),
    (
        "MATCH (n:R) REMOVE n:R SET n.k = null RETURN n.k, n:R",
        "[null,false] [null,false]",
    ),
    ("MATCH (n:R) RETURN n", ""),
    ("UNWIND [1, 2, 3] AS x CREATE (:U {x: x})", ""),
    ("MATCH (n:U) WITH sum(n.x) AS s WHERE s > 5 RETURN s", "[6]"),
    ("MATCH (n:U {x: 2}) DELETE n", ""),
    ("MATCH (n:U) RETURN n.x", "[1] [3]"),
    (
        "MATCH (n) DETACH DELETE n WITH count(*) AS c MATCH (m) RETURN c, m",
        "",
    ),
];

/// What is shown is what is there behind all clauses.
pub static READS: [Statement; 6] = [
    (
        "CREATE (a:P)-[e:T]->(b:Q) SET a.k = 1, e.w = 2 RETURN a, e, b",
        r#"[{"id":0,"labels":["P"],"properties":{"k":1}},{"from":0,"id":0,"properties":{"w":2},"to":1,"type":"T"},{"id":1,"labels":["Q"],"properties":{}}]"#,
    ),
    ("OPTIONAL MATCH (n:None) RETURN n, 1", "[null,1]"),
    ("MATCH (n) RETURN collect(id(n))", "[[0,1]]"),
    (
        "MATCH (n:P) WITH n, n.k AS old SET n.k = 5 RETURN old, n.k",
        "[1,5]",
    ),
    ("MATCH (n) RETURN id(n) ORDER BY id(n) DESC SKIP 1", "[0]"),
    ("MATCH (a:P)-[e]->(b) DELETE e RETURN id(a), id(b)", "[0,1]"),
];

/// The first refusal is the answer.
pub static STOPS: [Statement; 8] = [
    ("CREATE (a:P)-[:T]->(b:P)", ""),
    ("MATCH (n:P) DELETE n", "!has edges v0"),
    ("MATCH (n:P) SET n.k = 1 / 0", "!zero divisor"),
    ("MATCH (n:P) RETURN n.k + 'a' + 1, 1 / 0", "!zero divisor"),
    ("MATCH ()-[e]->() DELETE e RETURN e", "!gone e0"),
    ("MATCH (n:P) DETACH DELETE n RETURN n", "!gone v0"),
    ("UNWIND 1 AS x RETURN x", "!type"),
    ("RETURN 9223372036854775807 + 1", "!overflow"),
];

/// How many writes that change nothing come before the one that finds no memory; what [`QUIET`] comes to then; and what
/// [`SEEN`] comes to behind it, in the same transaction.
pub type WantRow = (u64, &'static str, &'static str);

/// Three vertices to write to.
pub static MADE: &str = "CREATE (:P {k: 1}), (:P {k: 2}), (:P {k: 3})";

/// Each vertex is written twice: the first write changes nothing.
pub static QUIET: &str = "MATCH (n:P) SET n.k = n.k, n.seen = true RETURN id(n), n.seen";

/// Which of the vertices were written.
pub static SEEN: &str = "MATCH (n:P) RETURN n.seen";

/// What was written before stays, and nothing is written behind.
pub static WANTS: [WantRow; 4] = [
    (0, "!no memory", "[null] [null] [null]"),
    (1, "!no memory", "[true] [null] [null]"),
    (2, "!no memory", "[true] [true] [null]"),
    (3, "[0,true] [1,true] [2,true]", "[true] [true] [true]"),
];
