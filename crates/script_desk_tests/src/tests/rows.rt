//! Lines of scripts, and their replies.

/// A line, and the lines of its reply.
pub type Row = (&'static [u8], &'static str);

/// The first writer of a vertex stays; the second one is told who it is, and loses its transaction.
pub static RIVALS: [Row; 12] = [
    (b"a: CREATE (:P {k:0})", "a: OK 0 at 2\n"),
    (b"a: BEGIN", "a: OK begin at 3\n"),
    (b"b: BEGIN", "b: OK begin at 4\n"),
    (b"a: MATCH (n:P) SET n.k = 1", "a: OK 0 at 3\n"),
    (b"b: MATCH (n:P) RETURN n.k", "b: [0]\nb: OK 1 at 4\n"),
    (
        b"b: MATCH (n:P) SET n.k = 2",
        "b: ERR 8 conflict v0 open 3 (aborted)\n",
    ),
    (b"b: COMMIT", "b: ERR 12 no transaction\n"),
    (b"c: BEGIN", "c: OK begin at 5\n"),
    (b"a: COMMIT", "a: OK commit at 6\n"),
    (
        b"c: MATCH (n:P) SET n.k = 2",
        "c: ERR 8 conflict v0 committed 6 (aborted)\n",
    ),
    (b"b: MATCH (n:P) RETURN n.k", "b: [1]\nb: OK 1 at 7\n"),
    (b"a: .quit", "a: OK bye\n"),
];

/// Lines that are skipped, and lines that are no session's.
pub static NAMES: [Row; 14] = [
    (b"", ""),
    (b" \t ", ""),
    (b"# a note", ""),
    (b"RETURN 1", "-: ERR 1 no session name\n"),
    (b": RETURN 1", "-: ERR 1 no session name\n"),
    (b"A: RETURN 1", "-: ERR 1 no session name\n"),
    (b"1a: RETURN 1", "-: ERR 1 no session name\n"),
    (b" a: RETURN 1", "-: ERR 1 no session name\n"),
    (b"a-b: RETURN 1", "-: ERR 1 no session name\n"),
    (
        b"abcdefghijklmno_: RETURN 1",
        "abcdefghijklmno_: [1]\nabcdefghijklmno_: OK 1 at 1\n",
    ),
    (b"abcdefghijklmno_p: RETURN 1", "-: ERR 1 no session name\n"),
    (b"a: \xff", "-: ERR 1 not UTF-8\n"),
    (b"a_1:RETURN ':'", "a_1: [\":\"]\na_1: OK 1 at 2\n"),
    (b"a:", "a: ERR 2 syntax at 0\n"),
];
