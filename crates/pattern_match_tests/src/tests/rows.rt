//! Patterns on small graphs, and what matches them, worked out by hand.
use crate::tests::graphs::Shape::{self, Double, Empty, Far, Loops, Pair, Ring, Town, Wide};

/// A graph, the names that are bound before, a pattern, and its tuples, or a refusal behind `!`.
pub(crate) type Tried = (Shape, &'static str, &'static str, &'static str);

pub(crate) static VERTICES: [Tried; 14] = [
    (Empty, "", "(a)", ""),
    (Pair, "", "(a)", "[0] [1]"),
    (Pair, "", "()", "[0] [1]"),
    (Pair, "", "(a:A)", "[0]"),
    (Pair, "", "(a:A:B)", ""),
    (Ring, "", "(a:B:A)", "[1]"),
    (Ring, "", "(a {k: 2})", "[1] [2]"),
    (Ring, "", "(a:A {k: 2})", "[1]"),
    (Ring, "", "(a {k: null})", ""),
    (Ring, "", "(a {z: 1})", ""),
    (Ring, "", "(a {k: 1, k: 2})", ""),
    (Ring, "", "(a {k: 1, k: 1})", "[0]"),
    (Ring, "", "(a {})", "[0] [1] [2]"),
    (Town, "", "(a:Q)", "[2]"),
];

pub(crate) static EDGES: [Tried; 18] = [
    (Pair, "", "(a)-[e]->(b)", "[0,0,1]"),
    (Pair, "", "(a)<-[e]-(b)", "[1,0,0]"),
    (Pair, "", "(a)-[e]-(b)", "[0,0,1] [1,0,0]"),
    (Pair, "", "(a)-[e]-(b)-[f]-(c)", ""),
    (Pair, "", "(a)-[:T]->(b)", "[0,0,1]"),
    (Pair, "", "(a)-[:U]->(b)", ""),
    (Pair, "", "(a)-[:U|T]->(b)", "[0,0,1]"),
    (Pair, "", "(a)-[{w: 7}]->(b)", "[0,0,1]"),
    (Pair, "", "(a)-[{w: 8}]->(b)", ""),
    (Loops, "", "(a)-[e]-(b)", "[0,0,0] [0,1,0]"),
    (Loops, "", "(a)-[e]->(a)", "[0,0,0] [0,1,0]"),
    (Loops, "", "(a)-[e]-(b)-[f]-(c)", "[0,0,0,1,0] [0,1,0,0,0]"),
    (Loops, "", "(a)-->()-->()-->()", ""),
    (Ring, "", "(a)-[e]->(b)", "[0,0,1] [1,1,2] [2,2,0] [2,3,2]"),
    (Ring, "", "(a)<-[e]-(b)", "[0,2,2] [1,0,0] [2,1,1] [2,3,2]"),
    (
        Ring,
        "",
        "(a)-[e]-(b)",
        "[0,0,1] [0,2,2] [1,0,0] [1,1,2] [2,1,1] [2,2,0] [2,3,2]",
    ),
    (Ring, "", "(a:A)-[e]->(b:B)", "[0,0,1] [1,1,2]"),
    (
        Ring,
        "",
        "(a)-[e:T|U]->(b {k: 2})",
        "[0,0,1] [1,1,2] [2,3,2]",
    ),
];

pub(crate) static PATHS: [Tried; 14] = [
    (
        Double,
        "",
        "(a)-[e]-(b)",
        "[0,0,1] [0,1,1] [0,2,1] [1,0,0] [1,1,0] [1,2,0]",
    ),
    (
        Double,
        "",
        "(a)-[e]->(b)-[f]->(a)",
        "[0,0,1,2,0] [0,1,1,2,0] [1,2,0,0,1] [1,2,0,1,1]",
    ),
    (
        Double,
        "",
        "(a)-[:T]->(b)<-[:T]-(c)",
        "[0,0,1,1,0] [0,1,1,0,0]",
    ),
    (
        Double,
        "",
        "(a:A)-[e]-(b)-[f]-(a)",
        "[0,0,1,1,0] [0,0,1,2,0] [0,1,1,0,0] [0,1,1,2,0] [0,2,1,0,0] [0,2,1,1,0]",
    ),
    (Double, "x=2", "(a)-[e {w: x}]->(b)", "[0,1,1]"),
    (
        Ring,
        "",
        "(a)-->(b)-->(c)-->(a)",
        "[0,0,1,1,2,2,0] [1,1,2,2,0,0,1] [2,2,0,0,1,1,2]",
    ),
    (
        Town,
        "",
        "(a:P)-[:KNOWS]->(b)-[:LIVES]->(c)",
        "[0,0,1,5,4] [0,2,2,6,5] [1,1,2,6,5] [2,3,0,4,4]",
    ),
    (
        Town,
        "",
        "(a)-[:KNOWS]->(b), (a)-[:LIVES]->(c)<-[:LIVES]-(b)",
        "[0,0,1,0,4,4,5,1]",
    ),
    (
        Town,
        "",
        "(a {k: 30})-[e:KNOWS]-(b {k: 30})",
        "[0,2,2] [0,3,2] [2,2,0] [2,3,0]",
    ),
    (Town, "", "(c:C)<-[:LIVES]-(a)", "[4,4,0] [4,5,1] [5,6,2]"),
    (Town, "", "(a:P), (c:C {k: 2})", "[0,5] [1,5] [2,5] [3,5]"),
    (Pair, "", "(a), (b)", "[0,0] [0,1] [1,0] [1,1]"),
    (Pair, "", "(a), (a)", "[0,0] [1,1]"),
    (Pair, "", "(a)-[e]->(b), (c)-[f]->(d)", ""),
];

pub(crate) static BOUND: [Tried; 16] = [
    (Ring, "p=v0", "(p)", "[0]"),
    (Ring, "p=v0", "(p:B)", ""),
    (Ring, "p=v0", "(p)-[e]->(b)", "[0,0,1]"),
    (Ring, "p=v0", "(b)-[e]->(p)", "[2,2,0]"),
    (Ring, "p=v0", "(p), (a)", "[0,0] [0,1] [0,2]"),
    (Ring, "p=v0 q=v1", "(p)-[e]->(q)", "[0,0,1]"),
    (Ring, "p=v0 q=v1", "(q)-[e]->(p)", ""),
    (Ring, "f=e0", "(a)-[f]->(b)", "[0,0,1]"),
    (Ring, "f=e0", "(a)-[f]-(b)", "[0,0,1] [1,0,0]"),
    (Ring, "f=e0", "(a)<-[f]-(b)", "[1,0,0]"),
    (Ring, "f=e0", "(a)-[f:U]-(b)", ""),
    (
        Ring,
        "f=e0",
        "(a)-[f]->(b), (c)-[e:T]->(a)",
        "[0,0,1,2,2,0]",
    ),
    (Ring, "p=v0", "(a {k: p.k})", "[0]"),
    (Ring, "g=v9", "(g)", ""),
    (Ring, "g=v9", "(g)-[e]->(b)", ""),
    (Ring, "g=e9", "(a)-[g]->(b)", ""),
];

/// Elements that are bound behind a free one: by the row, or by an earlier pattern.
pub(crate) static AHEAD: [Tried; 23] = [
    (Ring, "p=v2", "(a)-[e]->(p)", "[1,1,2] [2,3,2]"),
    (Ring, "p=v2", "(a)<-[e]-(p)", "[0,2,2] [2,3,2]"),
    (Ring, "p=v2", "(a)-[e]-(p)", "[0,2,2] [1,1,2] [2,3,2]"),
    (Ring, "p=v2", "(a:B)-[e:U|T]->(p {k: 2})", "[1,1,2] [2,3,2]"),
    (Double, "p=v1", "(a)-[e]-(p)", "[0,0,1] [0,1,1] [0,2,1]"),
    (Double, "p=v1", "(a:A)-[:T]->(p)", "[0,0,1] [0,1,1]"),
    (Loops, "p=v0", "(a)-[e]-(p)", "[0,0,0] [0,1,0]"),
    (
        Loops,
        "p=v0",
        "(a)-[e]->(b)-[f]->(p)",
        "[0,0,0,1,0] [0,1,0,0,0]",
    ),
    (
        Ring,
        "p=v0",
        "(a)-[e]->(b)-[f]->(p)",
        "[1,1,2,2,0] [2,3,2,2,0]",
    ),
    (Ring, "p=v0", "(a)<-[e]-(b)-[f]->(p)", "[2,3,2,2,0]"),
    (
        Ring,
        "p=v2 q=v0",
        "(a)-[e]->(p)-[f]->(q)",
        "[1,1,2,2,0] [2,3,2,2,0]",
    ),
    (
        Double,
        "p=v1",
        "(a)-[e]->(b)-[f]->(a)-[g]->(p)",
        "[0,0,1,2,0,1,1] [0,1,1,2,0,0,1]",
    ),
    (
        Ring,
        "p=v0",
        "(a), (b)-[e]->(p)",
        "[0,2,2,0] [1,2,2,0] [2,2,2,0]",
    ),
    (
        Town,
        "",
        "(c:C), (a)-[:LIVES]->(c)",
        "[4,0,4,4] [4,1,5,4] [5,2,6,5]",
    ),
    (
        Town,
        "",
        "(a {k: 20}), (c)-[e]->(d)<-[f]-(a)",
        "[1,0,2,2,1,1] [1,0,4,4,5,1]",
    ),
    (Town, "", "(a {k: 40}), (b)-[e]-(a)", ""),
    (Town, "p=v3", "(a)-[e]->(b)-[f]->(p)", ""),
    (Ring, "f=e3", "(a)-[e]->(b)-[f]->(c)", "[1,1,2,3,2]"),
    (
        Ring,
        "f=e1",
        "(a)-[e]-(b)-[f]-(c)",
        "[0,0,1,1,2] [0,2,2,1,1] [2,3,2,1,1]",
    ),
    (
        Ring,
        "f=e1",
        "(a)<-[e]-(b)<-[f]-(c)",
        "[0,2,2,1,1] [2,3,2,1,1]",
    ),
    (Ring, "f=e9", "(a)-[e]->(b)-[f]->(c)", ""),
    (Ring, "g=v9", "(a)-[e]->(g)", ""),
    (Ring, "n=null", "(a)-[e]->(b)-[f]->(n)", ""),
];

pub(crate) static NAMES: [Tried; 18] = [
    (Ring, "n=null", "(n)", ""),
    (Ring, "n=null", "(n)-[e]->(b)", ""),
    (Ring, "n=null", "(a)-[n]->(b)", ""),
    (Ring, "n=null", "(a), (n)", ""),
    (Ring, "x=5", "(x)", "!type"),
    (Ring, "x=5", "(a)-[x]->(b)", "!type"),
    (Ring, "f=e0", "(f)", "!type"),
    (Ring, "p=v0", "(a)-[p]->(b)", "!type"),
    (Ring, "n=null x=5", "(n), (x)", "!type"),
    (Ring, "n=null x=5", "(x), (n)", "!type"),
    (Ring, "x=5", "(c:C), (x)", "!type"),
    (Empty, "x=5", "(a)-[e]->(x)", "!type"),
    (Ring, "x=5", "(x), (a {k: 1/0})", "!zero divisor"),
    (Ring, "x=5", "(x {k: 1/0})", "!zero divisor"),
    (Ring, "", "(a {k: 'a' + 1}), (b {k: 1/0})", "!type"),
    (
        Ring,
        "",
        "(a)-[{w: 1/0}]->(b {k: 'a' + 1})",
        "!zero divisor",
    ),
    (Empty, "", "(a {k: 1/0})", "!zero divisor"),
    (Empty, "n=null", "(n {k: 1/0})", "!zero divisor"),
];

/// The names that are bound before and a clause on [`Pair`], and the rows that it makes, or a refusal behind `!`.
pub(crate) type Kept = (&'static str, &'static str, &'static str);

pub(crate) static KEPT: [Kept; 13] = [
    (
        "",
        "MATCH (a)-[e]->(b)",
        "{\"a\":\"v0\",\"e\":\"e0\",\"b\":\"v1\"}",
    ),
    (
        "",
        "MATCH (b)<-[e]-(a)",
        "{\"b\":\"v1\",\"e\":\"e0\",\"a\":\"v0\"}",
    ),
    ("", "MATCH ()", "{} {}"),
    ("", "MATCH (a) WHERE a.k = 2", "{\"a\":\"v1\"}"),
    ("", "MATCH (a) WHERE null", ""),
    ("", "MATCH (a) WHERE a.k > 1 OR null", "{\"a\":\"v1\"}"),
    ("", "MATCH (a) WHERE a.k", "!type"),
    ("", "MATCH (a) WHERE a.k = 1 OR 1/0 = 1", "!zero divisor"),
    (
        "x=5 p=v0",
        "MATCH (p)-[]->(b)",
        "{\"x\":5,\"p\":\"v0\",\"b\":\"v1\"}",
    ),
    ("p=v0;p=5", "MATCH (p)", "!type"),
    (
        "p=v0 z=0;p=5 z=1",
        "MATCH (p) WHERE 1/z = 1",
        "!zero divisor",
    ),
    ("p=5 z=0;p=v0 z=0", "MATCH (p) WHERE 1/z = 1", "!type"),
    (
        "p=v0;p=v1;p=null",
        "MATCH (p)-[e]-(b)",
        "{\"p\":\"v0\",\"e\":\"e0\",\"b\":\"v1\"} {\"p\":\"v1\",\"e\":\"e0\",\"b\":\"v0\"}",
    ),
];

pub(crate) static OPTIONAL: [Kept; 8] = [
    ("", "OPTIONAL MATCH (a)", "{\"a\":\"v0\"} {\"a\":\"v1\"}"),
    ("", "OPTIONAL MATCH (a:C)", "{\"a\":null}"),
    (
        "",
        "OPTIONAL MATCH (a:C)-[e]->(b), (a)",
        "{\"a\":null,\"e\":null,\"b\":null}",
    ),
    ("", "OPTIONAL MATCH (a) WHERE a.k = null", "{\"a\":null}"),
    (
        "n=null",
        "OPTIONAL MATCH (n)-[e]->(b)",
        "{\"n\":null,\"e\":null,\"b\":null}",
    ),
    ("x=5", "OPTIONAL MATCH (x)", "!type"),
    ("", "OPTIONAL MATCH (a) WHERE 1/0 = 1", "!zero divisor"),
    (
        "p=v0;p=v1;p=null",
        "OPTIONAL MATCH (p)-[e]->(b)",
        "{\"p\":\"v0\",\"e\":\"e0\",\"b\":\"v1\"} {\"p\":\"v1\",\"e\":null,\"b\":null} {\"p\":null,\"e\":null,\"b\":null}",
    ),
];

/// A graph, names, a pattern, the call of the reader that finds no memory, the tuples, and how often the reader was asked.
pub(crate) type Asked = (Shape, &'static str, &'static str, u64, &'static str, u64);

pub(crate) static ASKED: [Asked; 20] = [
    (Ring, "", "(a)", 0, "[0] [1] [2]", 7),
    (Ring, "p=v0", "(p)-[e]->(b)", 0, "[0,0,1]", 4),
    (Ring, "p=v0", "(p)-[e]->(b)", 1, "!no memory", 1),
    (Ring, "p=v0", "(p)-[e]->(b)", 2, "!no memory", 2),
    (Ring, "p=v0", "(p)-[e]->(b)", 3, "!no memory", 3),
    (Ring, "p=v0", "(p)-[e]->(b)", 4, "!no memory", 4),
    (Ring, "p=v0", "(p)-[e]->(b)", 5, "[0,0,1]", 4),
    (Ring, "p=v0 f=e0", "(p)-[f]->(b)", 0, "[0,0,1]", 3),
    (Town, "p=v3", "(p)-[e]-(b)", 0, "", 2),
    (
        Town,
        "p=v0 q=v1",
        "(p)-[:LIVES]->(c)<-[:LIVES]-(q)",
        0,
        "[0,4,4,5,1]",
        9,
    ),
    (Ring, "n=null", "(n)-[e]->(b)", 0, "", 0),
    (Ring, "n=null", "(a), (n)", 0, "", 0),
    (
        Wide,
        "p=v3",
        "(a)-[e]->(p)",
        0,
        "[7,0,3] [9,1,3] [9,3,3]",
        14,
    ),
    (Wide, "p=v3", "(a)-[e]->(p)", 1, "!no memory", 1),
    (Wide, "p=v3", "(a)-[e]->(p)", 4, "!no memory", 4),
    (Wide, "p=v3", "(a)-[e]->(p)", 5, "!no memory", 5),
    (
        Wide,
        "p=v3",
        "(a)-[e]->(b)-[f]->(p)",
        0,
        "[40,4,9,1,3] [40,4,9,3,3]",
        16,
    ),
    (Wide, "p=v5", "(a)-[e]->(p)", 0, "", 1),
    (Wide, "f=e4", "(a)-[f]->(b)", 0, "[40,4,9]", 4),
    (Wide, "f=e4", "(a)-[f]->(b)", 1, "!no memory", 1),
];

/// Vertices whose ids WHERE asks for.
pub(crate) static IDS: [Kept; 27] = [
    ("", "MATCH (n) WHERE id(n) = 1", "{\"n\":\"v1\"}"),
    ("", "MATCH (n) WHERE 1 = id(n)", "{\"n\":\"v1\"}"),
    ("", "MATCH (n) WHERE id(n) = 7", ""),
    ("", "MATCH (n) WHERE id(n) = -1", ""),
    ("", "MATCH (n:A) WHERE id(n) = 1", ""),
    ("", "MATCH (n) WHERE id(n) <> 0", "{\"n\":\"v1\"}"),
    ("", "MATCH (n) WHERE id(n) = 1 = 1", "{\"n\":\"v1\"}"),
    ("", "MATCH (n), (n) WHERE id(n) = 1", "{\"n\":\"v1\"}"),
    ("", "MATCH ()-[e]->() WHERE id(e) = 0", "{\"e\":\"e0\"}"),
    ("", "MATCH ()-[e]->() WHERE id(e) = 1", ""),
    (
        "",
        "MATCH (a)-[e]->(b) WHERE id(b) = 1",
        "{\"a\":\"v0\",\"e\":\"e0\",\"b\":\"v1\"}",
    ),
    ("", "MATCH (a)-[e]->(b) WHERE id(b) = 0", ""),
    (
        "",
        "MATCH (a), (b) WHERE id(a) = 0 AND id(b) = 1",
        "{\"a\":\"v0\",\"b\":\"v1\"}",
    ),
    (
        "",
        "MATCH (a), (b) WHERE id(b) = 0 AND 1 = id(a) AND a.k = 2",
        "{\"a\":\"v1\",\"b\":\"v0\"}",
    ),
    (
        "",
        "MATCH (n) WHERE id(n) = 0 AND id(n) = 0",
        "{\"n\":\"v0\"}",
    ),
    ("", "MATCH (n) WHERE id(n) = 0 AND id(n) = 1", ""),
    (
        "",
        "MATCH (n) WHERE id(n) = 0 OR id(n) = 1",
        "{\"n\":\"v0\"} {\"n\":\"v1\"}",
    ),
    (
        "",
        "MATCH (n) WHERE id(n) = 0 AND 1/(n.k - 2) < 0",
        "{\"n\":\"v0\"}",
    ),
    (
        "",
        "MATCH (n) WHERE 1/(n.k - 2) < 0 AND id(n) = 0",
        "!zero divisor",
    ),
    ("", "MATCH (n) WHERE id(n) = 0 AND n.k", "!type"),
    ("p=v0", "MATCH (p) WHERE id(p) = 1", ""),
    (
        "p=v0",
        "MATCH (p)-[]->(b) WHERE id(p) = 0",
        "{\"p\":\"v0\",\"b\":\"v1\"}",
    ),
    (
        "p=v0",
        "MATCH (n) WHERE id(p) = 0",
        "{\"p\":\"v0\",\"n\":\"v0\"} {\"p\":\"v0\",\"n\":\"v1\"}",
    ),
    ("x=5", "MATCH (n) WHERE id(x) = 5", "!type"),
    (
        "p=v0;p=v1",
        "MATCH (n) WHERE id(n) = 1",
        "{\"p\":\"v0\",\"n\":\"v1\"} {\"p\":\"v1\",\"n\":\"v1\"}",
    ),
    ("", "OPTIONAL MATCH (n) WHERE id(n) = 1", "{\"n\":\"v1\"}"),
    ("", "OPTIONAL MATCH (n) WHERE id(n) = 7", "{\"n\":null}"),
];

/// A graph, a clause, the call of the reader that finds no memory, the rows, and how often the reader was asked.
pub(crate) type Counted = (Shape, &'static str, u64, &'static str, u64);

/// One id costs as much on many vertices as on few. Where a number is no integer, its id is refused.
pub(crate) static COUNTED: [Counted; 8] = [
    (Pair, "MATCH (n) WHERE id(n) = 1", 0, "{\"n\":\"v1\"}", 2),
    (Wide, "MATCH (n) WHERE id(n) = 1", 0, "{\"n\":\"v1\"}", 2),
    (Wide, "MATCH (n) WHERE id(n) = 1", 1, "!no memory", 1),
    (Wide, "MATCH (n) WHERE id(n) = 1", 2, "!no memory", 2),
    (Wide, "MATCH (n) WHERE id(n) = 99", 0, "", 2),
    (
        Pair,
        "MATCH (a), (b) WHERE id(a) = 1 AND id(b) = 0",
        0,
        "{\"a\":\"v1\",\"b\":\"v0\"}",
        3,
    ),
    (
        Wide,
        "MATCH (a), (b) WHERE id(a) = 1 AND id(b) = 0",
        0,
        "{\"a\":\"v1\",\"b\":\"v0\"}",
        3,
    ),
    // one look ahead, three steps through the vertices, and each of the two is looked at
    (Far, "MATCH (n) WHERE id(n) = 1", 0, "!overflow", 6),
];
