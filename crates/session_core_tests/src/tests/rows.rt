//! Lines of one session, and what they are answered.

/// A line, and its reply.
pub type Row = (&'static [u8], &'static str);

/// Queries in transactions of their own.
pub static QUERIES: [Row; 12] = [
    (b"RETURN 1", "[1]\nOK 1 at 1"),
    (b"CREATE (:P {k:1})", "OK 0 at 3"),
    (
        b"MATCH (n:P) SET n.k = n.k + 1 RETURN n.k",
        "[2]\nOK 1 at 5",
    ),
    (
        b"MATCH (n:P) RETURN n",
        "[{\"id\":0,\"labels\":[\"P\"],\"properties\":{\"k\":2}}]\nOK 1 at 6",
    ),
    // the write before the error is gone
    (
        b"MATCH (n:P) SET n.k = 7 WITH n MATCH (m:P) RETURN m.k + 'a'",
        "ERR 5 type",
    ),
    (b"MATCH (n:P) RETURN n.k", "[2]\nOK 1 at 8"),
    (b"CREATE (:P)-[:T]->(:P)", "OK 0 at 10"),
    (b"MATCH (a)-[:T]->() DELETE a", "ERR 9 has edges v1"),
    (b"MATCH (a)-[t:T]->() DELETE t, a", "OK 0 at 13"),
    (b"MATCH (n) RETURN count(n)", "[2]\nOK 1 at 14"),
    (
        b"MATCH (n:P) WHERE n.k = 2 DELETE n RETURN n.k",
        "ERR 17 gone v0",
    ),
    (b"RETURN 1 AS", "ERR 2 syntax at 11"),
];

/// BEGIN, COMMIT and ROLLBACK in each spelling, and what is open behind them.
pub static TRANSACTIONS: [Row; 21] = [
    (b"COMMIT", "ERR 12 no transaction"),
    (b"rollback;", "ERR 12 no transaction"),
    (b"BEGIN", "OK begin at 1"),
    (b"CREATE (:P {k:1})", "OK 0 at 1"),
    (b"MATCH (n:P) RETURN n.k", "[1]\nOK 1 at 1"),
    (b"commit;", "OK commit at 2"),
    (b"Begin;", "OK begin at 3"),
    (b"MATCH (n:P) SET n.k = 2", "OK 0 at 3"),
    (b"ROLLBACK", "OK rollback"),
    (b"MATCH (n:P) RETURN n.k", "[1]\nOK 1 at 4"),
    (b"begin", "OK begin at 5"),
    (b"COMMIT", "OK commit at 5"),
    // a transaction that BEGIN has opened ends with the first error
    (b"BEGIN", "OK begin at 6"),
    (b"MATCH (n:P) SET n.k = 3", "OK 0 at 6"),
    (b"BEGIN", "ERR 13 already open (aborted)"),
    (b"COMMIT", "ERR 12 no transaction"),
    (b"BEGIN", "OK begin at 7"),
    (b"RETURN 1 / 0", "ERR 7 zero divisor (aborted)"),
    (b"MATCH (n:P) RETURN n.k", "[1]\nOK 1 at 8"),
    // a word with more behind it is a query
    (b"BEGIN ;", "ERR 2 syntax at 0"),
    (b"COMMIT now", "ERR 2 syntax at 0"),
];

/// Faults before a query is run.
pub static FAULTS: [Row; 10] = [
    (b"RETURN", "ERR 2 syntax at 6"),
    (b"RETURN x", "ERR 3 unbound \"x\""),
    (b"RETURN 1 AS x, 2 AS x", "ERR 4 shape redeclared \"x\""),
    (b"CREATE (n) TT SNAPSHOT 1", "ERR 4 shape write under TT"),
    (
        b"MATCH (n) RETURN count(n) TT BETWEEN 0 AND 1",
        "ERR 4 shape not a TT BETWEEN query",
    ),
    (b"BEGIN", "OK begin at 1"),
    (b"RETURN x", "ERR 3 unbound \"x\" (aborted)"),
    (b"\xff", "ERR 1 not UTF-8"),
    (b".now or never", "ERR 1 unknown command"),
    (b". now", "ERR 1 unknown command"),
];

/// Queries of an instant, in transactions of their own and in one that BEGIN has opened.
pub static SNAPSHOTS: [Row; 20] = [
    (b"CREATE (:P {k:1})", "OK 0 at 2"),
    (b"MATCH (n:P) SET n.k = 2", "OK 0 at 4"),
    (b"MATCH (n:P) RETURN n.k TT SNAPSHOT 0", "OK 0 at 5"),
    (b"MATCH (n:P) RETURN n.k TT SNAPSHOT 3", "[1]\nOK 1 at 6"),
    (b"MATCH (n:P) RETURN n.k TT SNAPSHOT 7", "[2]\nOK 1 at 7"),
    // the reading of the clock at its begin is 8
    (
        b"MATCH (n:P) RETURN n.k TT SNAPSHOT 9",
        "ERR 10 time ahead 9 start 8",
    ),
    (b"BEGIN", "OK begin at 9"),
    (b"MATCH (n:P) SET n.k = 3", "OK 0 at 9"),
    // what the transaction has written stands at no instant yet
    (b"MATCH (n:P) RETURN n.k TT SNAPSHOT 9", "[2]\nOK 1 at 9"),
    (b"MATCH (n:P) RETURN n.k", "[3]\nOK 1 at 9"),
    (
        b"MATCH (n:P) RETURN n TT SNAPSHOT 2",
        "[{\"id\":0,\"labels\":[\"P\"],\"properties\":{\"k\":1}}]\nOK 1 at 9",
    ),
    (
        b"MATCH (n:P) RETURN n.k TT SNAPSHOT 10",
        "ERR 10 time ahead 10 start 9 (aborted)",
    ),
    (b"COMMIT", "ERR 12 no transaction"),
    (b"MATCH (n:P) RETURN n.k", "[2]\nOK 1 at 10"),
    // each reason ends the transaction
    (b"BEGIN", "OK begin at 11"),
    (
        b"MATCH (n:P) RETURN n.k / 0 TT SNAPSHOT 2",
        "ERR 7 zero divisor (aborted)",
    ),
    (
        b"MATCH (n:P) RETURN n.k / 0 TT SNAPSHOT 2",
        "ERR 7 zero divisor",
    ),
    (b"MATCH (n:P) RETURN n.k / 0 TT SNAPSHOT 1", "OK 0 at 13"),
    (b"BEGIN", "OK begin at 14"),
    (
        b"UNWIND [1, 2] AS x RETURN sum(x) TT SNAPSHOT 14",
        "[3]\nOK 1 at 14",
    ),
];

/// Queries of a span, in transactions of their own and in one that BEGIN has opened.
pub static SPANS: [Row; 14] = [
    (b"CREATE (n:P {k:1})", "OK 0 at 2"),
    (b"MATCH (n:P) SET n.k = 2", "OK 0 at 4"),
    (
        b"MATCH (n:P) RETURN n.k TT BETWEEN 0 AND 5",
        "[1,2,3]\n[2,4,5]\nOK 2 at 5",
    ),
    (
        b"MATCH (n:P) RETURN n.k TT BETWEEN 3 AND 4",
        "[1,3,3]\n[2,4,4]\nOK 2 at 6",
    ),
    // no transaction begins for what is no span
    (
        b"MATCH (n) RETURN n TT BETWEEN 9 AND 2",
        "ERR 11 bad range 9 2",
    ),
    (b".now", "OK now 7 mark 7"),
    (b"BEGIN", "OK begin at 7"),
    (b"MATCH (n:P) SET n.k = 3", "OK 0 at 7"),
    // what the transaction has written stands at no instant yet
    (
        b"MATCH (n:P) RETURN n.k TT BETWEEN 5 AND 7",
        "[2,5,7]\nOK 1 at 7",
    ),
    (
        b"MATCH (n:P) RETURN n.k TT BETWEEN 5 AND 8",
        "ERR 10 time ahead 8 start 7 (aborted)",
    ),
    (b"BEGIN", "OK begin at 8"),
    (
        b"MATCH (n:P) RETURN n.k TT BETWEEN 9 AND 8",
        "ERR 11 bad range 9 8 (aborted)",
    ),
    (b"COMMIT", "ERR 12 no transaction"),
    (b"MATCH (n:P) RETURN n.k", "[2]\nOK 1 at 9"),
];

/// Commands, inside transactions and outside.
pub static COMMANDS: [Row; 14] = [
    (b".now", "OK now 1 mark 1"),
    (b".stats", "OK chain 0 history 0 blocks 0"),
    (b"CREATE (:P {k:1})", "OK 0 at 2"),
    (b"MATCH (n:P) SET n.k = 2", "OK 0 at 4"),
    (b".stats", "OK chain 4 history 0 blocks 0"),
    (b"BEGIN", "OK begin at 5"),
    (b".now", "OK now 6 mark 5"),
    (b".sweep", "OK swept mark 5 moved 4 stale 0"),
    (b".stats", "OK chain 0 history 4 blocks 4"),
    (b"MATCH (n:P) RETURN n.k", "[2]\nOK 1 at 5"),
    (b".quit", "OK bye"),
    (b".nothing", "ERR 1 unknown command (aborted)"),
    (b".sweep", "OK swept mark 6 moved 0 stale 0"),
    (b".QUIT", "ERR 1 unknown command"),
];

/// Spaces and tabs at both ends of a line are none of the statement, and places count from behind them.
pub static LINES: [Row; 6] = [
    (b"  BEGIN\t", "OK begin at 1"),
    (b"\t ROLLBACK ", "OK rollback"),
    (b" .now ", "OK now 2 mark 2"),
    (b"   RETURN 1 +", "ERR 2 syntax at 10"),
    (b"", "ERR 2 syntax at 0"),
    (b" \t ", "ERR 2 syntax at 0"),
];
