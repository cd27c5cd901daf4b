//! Statements over new stores, each in a transaction of its own, with what they come to.

/// A statement, and its rows parted by spaces, or `!` and why it stopped.
pub type Line = (&'static str, &'static str);

pub static PRINTED: [Line; 5] = [
    ("CREATE (n:P {k:1})", ""),
    ("MATCH (n:P) SET n.k = 1", ""),
    ("MATCH (n:P) SET n.k = 1, n.j = 5", ""),
    ("MATCH (n:P) RETURN n.k TT BETWEEN 2 AND 6", "[1,2,6]"),
    (
        "MATCH (n:P) RETURN n TT BETWEEN 2 AND 6",
        r#"[{"id":0,"labels":["P"],"properties":{"k":1}},2,4] [{"id":0,"labels":["P"],"properties":{"j":5,"k":1}},5,6]"#,
    ),
];

pub static GAPS: [Line; 4] = [
    ("CREATE (n:P {k:1})", ""),
    ("MATCH (n:P) SET n.k = 2", ""),
    ("MATCH (n:P) SET n.k = 1", ""),
    (
        "MATCH (n:P) RETURN n.k TT BETWEEN 0 AND 7",
        "[1,2,3] [2,4,5] [1,6,7]",
    ),
];

pub static ENDS: [Line; 5] = [
    ("CREATE (n:P {k:1})", ""),
    ("MATCH (n:P) SET n.k = 2", ""),
    (
        "MATCH (n:P) RETURN n.k TT BETWEEN 0 AND 5",
        "[1,2,3] [2,4,5]",
    ),
    (
        "MATCH (n:P) RETURN n.k TT BETWEEN 3 AND 4",
        "[1,3,3] [2,4,4]",
    ),
    (
        "MATCH (n:P) RETURN n.k TT BETWEEN 9 AND 10",
        "!time ahead 10 start 7",
    ),
];

/// Tuples come in the order of their ids, and what is gone leaves a gap.
pub static ORDER: [Line; 8] = [
    ("CREATE (a:P {k: 1})-[:T]->(b:Q {k: 2}), (c:P {k: 3})", ""),
    ("MATCH (n:P) WHERE n.k = 3 REMOVE n:P", ""),
    ("MATCH (n) WHERE id(n) = 2 SET n:P", ""),
    (
        "MATCH (n:P) RETURN id(n), n.k TT BETWEEN 0 AND 7",
        "[0,1,2,7] [2,3,2,3] [2,3,6,7]",
    ),
    ("MATCH (a:P)-[e:T]->(b) SET b.k = 7", ""),
    (
        "MATCH (a:P)-[e:T {w: null}]->(b) RETURN id(a) TT BETWEEN 0 AND 7",
        "",
    ),
    (
        "MATCH (a:P)-[e:T]->(b) WHERE b.k > 2 RETURN id(e), b.k TT BETWEEN 2 AND 11",
        "[0,7,9,11]",
    ),
    (
        "MATCH (a:P), (b:P) RETURN id(a), id(b) TT BETWEEN 3 AND 6",
        "[0,0,3,6] [0,2,3,3] [0,2,6,6] [2,0,3,3] [2,0,6,6] [2,2,3,3] [2,2,6,6]",
    ),
];

/// The first refusal is that of the first tuple, at its first instant; that of the maps comes before all.
pub static STOPS: [Line; 6] = [
    ("CREATE (a:P {k: 0}), (b:P {k: 'x'})", ""),
    ("MATCH (a:P) SET a.k = 5", ""),
    (
        "MATCH (n:P) RETURN 1 / n.k TT BETWEEN 2 AND 5",
        "!zero divisor",
    ),
    (
        "MATCH (n:P) RETURN 1 / n.k TT BETWEEN 4 AND 5",
        "[0,4,5] [0,4,5]",
    ),
    (
        "MATCH (n:P) WHERE n.k + 1 > 1 RETURN id(n) TT BETWEEN 2 AND 5",
        "!type",
    ),
    (
        "MATCH (n:P {k: 1 / 0}) RETURN id(n) TT BETWEEN 0 AND 1",
        "!zero divisor",
    ),
];
